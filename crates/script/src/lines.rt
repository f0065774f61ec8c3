// The lines of a file of steps.
ghost use Rattle.std.specs.Prelude.{◌≡◌};
ghost use Rattle.std.specs.Iterator.{YieldsFirstRef, item_count};
ghost use Rattle.script.specs.Judging.{lines};
ghost use Rattle.script.specs.Lines.{lines_left};

use scan::Stop;

// The lines of a file that are still to come, without their newlines.
#[derive(Drop)]
pub struct Lines<'a> {
    rest: &'a [u8],
}

impl<'a> Lines<'a> {
    pub fn of(file: &'a [u8]) -> Lines<'a>
        ensures { lines_left result ≡ lines file.now }
    {
        Lines { rest: file }
    }
}

impl<'a> Iterator for Lines<'a> {
    type Item = &'a [u8];

    ghost next_gives = { YieldsFirstRef lines_left };

    ghost remaining = { item_count lines_left };

    fn next(&mut self) -> Option<&'a [u8]> {
        let rest = self.rest;
        if rest.is_empty() {
            return None;
        }
        let (line, behind) = rest.split_at(scan::until(rest, 0, Stop::LineEnd));
        // the newline, if one stands there
        self.rest = &behind[behind.len().min(1)..];
        Some(line)
    }
}
