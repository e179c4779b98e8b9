//! What the words `--help` and `--version` write, and the version as a number.
//!
//! Made by tools/help_and_version of docs/help.txt and docs/version.txt: edit these.

ghost use Rattle.top_call.specs.HelpAndVersion.{help_text, version_number, version_text};
ghost use Rattle.std.specs.Prelude.{◌≡◌};

/// What `--help` writes: the words of the program, and what its exit status says.
pub fn help_text() -> &'static str
    ensures text { result.now ≡ help_text }
{
    concat!(
        "gen2run WORDS < INPUT > OUTPUT\n",
        "\n",
        "Plays scenarios of readers and tags of the EPC Gen2 air interface, answers as a\n",
        "tag does, audits traces that others made, and explains and makes captures.\n",
        "\n",
        "words            input -> output\n",
        "  run            a scenario -> its report\n",
        "  run trace      a scenario -> its report, with the waves of each exchange\n",
        "  run json       a scenario -> its report, each line as a JSON object\n",
        "  run exchanges  a scenario -> its report, and who said what in each exchange\n",
        "  run exchanges json  a scenario -> the same, each line as a JSON object\n",
        "  run vcd        a scenario -> its waves, for GTKWave and PulseView\n",
        "  upgrade        a scenario -> the same in version 2\n",
        "  audit          a scenario, its trace -> yes, or the first line that can't be\n",
        "  audit json     a scenario, its trace -> the same, as a JSON object\n",
        "  portals        a scenario of two readers -> what each lists, also alone\n",
        "  decode         lines of captures -> what each of them says\n",
        "  decode json    lines of captures -> the same, each line as a JSON object\n",
        "  encode         bits, commands, replies -> for each the line that decode reads\n",
        "  probe          a tag, lines for it -> what it answers to each, and then is\n",
        "  probe json     a tag, lines for it -> the same, each line as a JSON object\n",
        "  judge          a tag, its log -> yes, or the first answer that can't be\n",
        "  judge json     a tag, its log -> the same, as a JSON object\n",
        "  names          any lines -> the same, with trade item numbers\n",
        "  gen SEED TAGS  nothing -> the summary of a run over generated tags\n",
        "  --help         nothing -> this text\n",
        "  --version      nothing -> the version, and what it was proved with\n",
        "\n",
        "The input is the standard input, and has at most 16,777,216 bytes. The script\n",
        "gen2run of a checkout takes a file too, behind the words; and --check before\n",
        "audit or judge: then an answer that isn't yes ends with 1.\n",
        "\n",
        "exit status\n",
        "  0  done\n",
        "  1  of the script alone: --check, and the answer isn't yes\n",
        "  2  there are no such words\n",
        "  3  the input is faulty: the output is its one line, fault LINE REASON\n",
        "  4  the input can't be read\n",
        "  5  the output can't be written: what was written is the front of it\n",
        "  6  the input is too long\n",
        "  7  there is no memory: what was written is the front of the output\n",
        "  8  the words can't be read: each has to be UTF-8\n",
        "  9  of the script alone: there is no program\n",
    )
}

/// What `--version` writes: the program's name and version, the version of its texts, and what it was proved with.
pub fn version_text() -> &'static str
    ensures text { result.now ≡ version_text }
{
    concat!(
        "gen2run 1.0.0\n",
        "texts of version 1\n",
        "proved with rattle-kit-13f logic dac8208d650f15bf\n",
    )
}

/// The program's version as a number: 1,000,000 for each major version, 1,000 for each minor one, and 1 for each patch.
pub fn version_number() -> u32
    ensures number { result ≡ version_number }
{
    1_000_000
}
