//! What holds of the counts of what was listed, of the names of lines, and of their objects. The functions here state it by their contracts.
ghost use Rattle.std.specs.Prelude.{◌≡◌, ◌≤◌, ◌++◌, ℕ, List, [], ◌∷◌, length};
ghost use Rattle.std.specs.List.{AllByRecursion};
ghost use Rattle.report_lines.specs.JsonLines.{json_pairs};
ghost use Rattle.report_lines.specs.Names.{AreWithNames, BecomesLines};
ghost use Rattle.report_lines.specs.ReportLine.{ReportLine};
ghost use Rattle.report_lines.specs.SeenCounts.{count_of, seen_counts, seen_more};
ghost use Rattle.report_lines.specs.Unescaped.{HasWords, IsPlainPair};

use epc_sgtin::sgtin_laws;

/// With one pair more the count of this pair rises, or it stands last with the count 1. No pair has a
/// greater count than pairs were listed.
pub fn seen_laws()
    ensures more { (pairs : List (ℕ × List ℕ)) (pair : ℕ × List ℕ)
        → seen_counts (pairs ++ pair ∷ []) ≡ seen_more (seen_counts pairs) pair }
    ensures few { (pairs : List (ℕ × List ℕ)) (pair : ℕ × List ℕ)
        → count_of (seen_counts pairs) pair ≤ length pairs }
{}

/// Each line becomes some lines, and lines become one text with their names.
pub fn lines_have_names()
    ensures some { (line : List ℕ) → (lines : List (List ℕ)) × BecomesLines line lines }
    ensures one { (lines : List (List ℕ)) (one other : List ℕ) → AreWithNames lines one
        → AreWithNames lines other → one ≡ other }
{
    // Words are those of one SGTIN, or are refused.
    sgtin_laws();
}

/// No key of the object of a line has a byte that JSON escapes, and no text in it.
pub fn objects_need_no_escape()
    ensures { (line : ReportLine) → HasWords line → AllByRecursion IsPlainPair (json_pairs line) }
{}
