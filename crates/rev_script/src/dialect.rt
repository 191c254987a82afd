//! How a script's data blocks end.
ghost use Rattle.std.specs.Prelude.{◌≡◌, false};
ghost use Rattle.rev_script.specs.Script.{is_passed};

/// What has to stand behind the data of a storage line.
#[derive(Clone, Copy, Debug, PartialEq, Eq)]
pub enum Dialect {
    /// CR LF, as clients send it. Any other two bytes make the block a bad one, and the next line begins behind them.
    CrLf,
    /// LF or CR LF, as a person types it and an editor writes it. A bad block ends with its line: the next line begins
    /// behind the next LF.
    AnyFeed,
}

impl Dialect {
    /// Whether the line that a bad block ends in is passed over.
    pub fn passes_bad_lines(self) -> bool
        ensures { result ≡ is_passed self false }
    {
        match self {
            Dialect::CrLf => false,
            Dialect::AnyFeed => true,
        }
    }
}
