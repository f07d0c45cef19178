// Where the reader of a text stands. The cursor is lent to `advance`, the one function that moves it.
#![tactic(auto)]

ghost use Rattle.std.specs.Prelude.{◌≡◌, ◌+◌, ◌<◌};
ghost use Rattle.cursor.specs.Places.{first_cursor, past_line};

// Where the reader stands: the next byte, and its line, counted from 1.
#[derive(Clone, Copy)]
pub struct Cursor {
    pub at: usize,
    pub line: usize,
}

impl Cursor {
    // At the first line.
    pub fn first() -> Self
        ensures { result ≡ first_cursor }
    {
        Self { at: 0, line: 1 }
    }

    // Moves the cursor on, past a line of len bytes and its line feed.
    pub fn advance(&mut self, len: usize)
        requires { (self.old.at + len < 2147483648) × (self.old.line < 2147483648) }
        ensures { self.new ≡ past_line self.old len }
    {
        self.at += len + 1;
        self.line += 1;
    }
}
