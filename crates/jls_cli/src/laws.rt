//! Laws of the words of both programs. The function does nothing, and its contract is the laws.

ghost use Rattle.jls_cli.specs.SalvageWords.{salvage_app};
ghost use Rattle.jls_cli.specs.SpliceWords.{splice_app};
ghost use Rattle.jls_cli.specs.Words.{TakesFaultless};

/// Laws: clap says of words whether it takes them, and which faults it finds in them. Both agree for each program.
pub fn faultless_words_are_taken()
    ensures salvage { TakesFaultless salvage_app }
    ensures splice { TakesFaultless splice_app }
{}
