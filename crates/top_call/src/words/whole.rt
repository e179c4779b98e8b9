//! The words that write what is defined for their whole input, which is read first.
ghost use Rattle.std.specs.Prelude.{◌≡◌, ◌≢◌, ◌≤◌, Err, length};
ghost use Rattle.top_call.specs.declared.forms.Form.{Form};
ghost use Rattle.top_call.specs.Form.{IsForm, ReadsFirst};
ghost use Rattle.top_call.specs.Jobs.{AnswersForm, job_of};
ghost use Rattle.top_call.specs.StatusMeanings.{EndsSo, input_limit, source_change, sink_change};

use crate::ending::{MOST_INPUT_BYTES, WriteEnd, Wrote, status_of, unread_status};
use crate::forms::{Form, reads_input};
use crate::help_and_version::{help_text, version_text};
use crate::status::Status;
use crate::words::{
    audit, encode, generate, judge, names, own_texts, portals, probe, run, upgrade,
};
use air_io::{Sink, Source, read_to_end};
use std::alloc::Global;

/// Reads the input to its end, where the words of the form have one, and writes what is defined for it. The whole input is
/// checked before anything is written.
pub fn answer<I: Source, O: Sink>(
    alloc: Global,
    form: Form,
    input: &mut I,
    output: &mut O,
) -> Status
    requires form { IsForm form }
    requires first { ReadsFirst form }
    ensures { AnswersForm form (source_change I.left I.faults input.old input.new)
        (sink_change O.written O.faults output.old output.new) (input.new ≡ input.old)
        (output.new ≡ output.old) result }
{
    if !reads_input(form) {
        return status_of(write_defined(alloc, form, b"", output));
    }
    match read_to_end(alloc, input, MOST_INPUT_BYTES) {
        Ok(bytes) => status_of(write_defined(alloc, form, bytes.as_slice(), output)),
        Err(end) => unread_status(end),
    }
}

/// Writes what is defined for the bytes of an input.
fn write_defined<O: Sink>(
    alloc: Global,
    form: Form,
    input: &[u8],
    output: &mut O,
) -> Result<Wrote, WriteEnd>
    requires form { IsForm form }
    requires first { ReadsFirst form }
    requires limit { length input.now ≤ input_limit }
    ensures ends { EndsSo (job_of form) input.now
        (sink_change O.written O.faults output.old output.new) result }
    ensures names_memory { form ≡ Form.Names → result ≢ Err WriteEnd.OutOfMemory }
{
    match form {
        Form::Encode => encode::write_encoded(alloc, input, output),
        Form::Run(mode) => run::write_report(alloc, mode, input, output),
        Form::Upgrade => upgrade::write_upgraded(alloc, input, output),
        Form::Portals => portals::write_portals(alloc, input, output),
        Form::Names => names::write_with_names(input, output),
        Form::Probe => probe::write_probed(alloc, input, output),
        Form::Judge => judge::write_judged(alloc, input, output),
        Form::Audit => audit::write_audited(alloc, input, output),
        Form::Gen { seed, tags } => generate::write_summary(alloc, seed, tags, output),
        Form::Help => own_texts::write_own_text(help_text().as_bytes(), output),
        Form::Version => own_texts::write_own_text(version_text().as_bytes(), output),
        Form::Decode | Form::Objects(_) => unreachable!(),
    }
}
