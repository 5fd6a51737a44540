// Positions in a text: a byte's place, its line and its column.
ghost use Rattle.std.specs.Prelude.{◌≡◌, ◌+◌, ◌^◌, ◌<◌, []};
ghost use Rattle.scanner.specs.Position.{position_at};
ghost use Rattle.scanner.specs.Position.Cursor.{past, along};

// Bytes count from 0, lines and columns from 1.
#[derive(Clone, Copy)]
pub struct Position {
    pub place: usize,
    pub line: usize,
    pub column: usize,
}

impl Position {
    // Where every text begins.
    pub fn start() -> Position
        ensures { result ≡ position_at [] 0 }
    {
        Position {
            place: 0,
            line: 1,
            column: 1,
        }
    }

    // One byte further: LF ends a line.
    pub fn past(self, b: u8) -> Position
        requires { (self.place + 1 < 2 ^ 64) × (self.line + 1 < 2 ^ 64) × (self.column + 1 < 2 ^ 64) }
        ensures { result ≡ past self b }
    {
        let feed = b == b'\n';
        let line = if feed { self.line + 1 } else { self.line };
        let column = if feed { 1 } else { self.column + 1 };
        Position {
            place: self.place + 1,
            line,
            column,
        }
    }

    // So many bytes further on the same line.
    pub fn along(self, n: usize) -> Position
        requires { (self.place + n < 2 ^ 64) × (self.column + n < 2 ^ 64) }
        ensures { result ≡ along self n }
    {
        Position {
            place: self.place + n,
            line: self.line,
            column: self.column + n,
        }
    }
}
