// A room that is lent for a text, and the index where the text goes on.
ghost use Rattle.std.specs.Prelude.{◌≡◌, ◌+◌, ◌≤◌, length};
ghost use Rattle.report.specs.CodeWriter.{Appends};

#[derive(Drop)]
pub(crate) struct Writer<'a> {
    pub(crate) out: &'a mut [u8],
    pub(crate) at: usize,
}

impl Writer<'_> {
    // The bytes w. They come by value, so that of a fixed text the compiler makes stores of whole words.
    pub(crate) fn put<const N: usize>(&mut self, w: [u8; N])
        requires { self.old.at + N ≤ length self.old.out.now }
        ensures { Appends self.old w.entry self.new }
    {
        let end = self.at + N;
        self.out[self.at..end].copy_from_slice(&w);
        self.at = end;
    }
}
