//! How often each pair of PC and EPC is listed, while a run is told.
ghost use Rattle.std.specs.Prelude.{◌≡◌, ◌++◌, List, [], ◌∷◌, false};
ghost use Rattle.air_world.specs.Listing.{pairs_told};
ghost use Rattle.report_lines.specs.Line.{line_of};
ghost use Rattle.report_lines.specs.ReportLine.{ReportLine};
ghost use Rattle.report_lines.specs.SeenCounts.{seen_counts};

use report_lines::{Line, Listener, PlayFault, SeenCounts};

/// Counts how often each pair of PC and EPC is listed, in the room that is lent for it, and tells another listener every
/// line. Where there is no memory for a count, that is a fault behind those of the other listener.
#[derive(Drop)]
pub(crate) struct SeenListener<'r, R: Listener> {
    pub(crate) report: &'r mut R,
    pub(crate) seen: &'r mut SeenCounts,
    pub(crate) out_of_memory: bool,
}

impl<'r, R: Listener> SeenListener<'r, R> {
    /// Counts what a line lists.
    fn count(&mut self, line: &Line<'_>)
        ensures rest { self.new
            ≡ record self.old { seen = self.new.seen; out_of_memory = self.new.out_of_memory } }
        ensures memory { self.new.out_of_memory ≡ false → self.old.out_of_memory ≡ false }
        ensures seen { (lines : List ReportLine) → self.new.out_of_memory ≡ false
            → self.old.seen.now ≡ seen_counts (pairs_told lines)
            → self.new.seen.now ≡ seen_counts (pairs_told (lines ++ line_of line.now ∷ [])) }
    {
        let Line::List { pc, epc, .. } = *line else {
            return;
        };
        match self.seen.count(pc, epc) {
            Ok(()) => {}
            Err(_) => self.out_of_memory = true,
        }
    }
}

impl<'r, R: Listener> Listener for SeenListener<'r, R> {
    ghost use Rattle.std.specs.Prelude.{[], false, refl};
    ghost use Rattle.air_world.specs.Listing.{first_fault_of, pairs_told};
    ghost use Rattle.report_lines.specs.SeenCounts.{seen_counts};

    ghost hears = { λ first lines later. (later.report.ghost_name ≡ first.report.ghost_name) × R.hears first.report.now lines later.report.now
        × (first.seen.now ≡ [] → later.out_of_memory ≡ false → later.seen.now ≡ seen_counts (pairs_told lines)) };

    ghost failed = { λ listener. first_fault_of (R.failed listener.report.now) listener.out_of_memory };

    fn tell(&mut self, line: &Line<'_>) {
        self.count(line);
        self.report.tell(line);
    }

    fn fault(&self) -> Option<PlayFault> {
        if let Some(fault) = self.report.fault() {
            return Some(fault);
        }
        if self.out_of_memory {
            return Some(PlayFault::OutOfMemory);
        }
        None
    }

    fn wants_exchanges(&self) -> bool {
        self.report.wants_exchanges()
    }

    fn wants_frames(&self) -> bool {
        self.report.wants_frames()
    }

    ghost nothing = { λ listener. (refl, R.nothing listener.report.now, λ fresh enough. fresh) };
}
