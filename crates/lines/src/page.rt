// A text that grows at the end of a page. There is no heap, so a page is a lent buffer, of any length, and the place where its text
// ends. It stays on that buffer, so that the lender has the text when the page is gone.
ghost use Rattle.std.specs.Prelude.{◌≡◌, [], ◌∷◌, ◌+◌, ◌≤◌, ◌<◌, length};
ghost use Rattle.model.specs.Lines.{decimal};
ghost use Rattle.lines.specs.Written.{Put, Counted};

#[derive(Drop)]
pub struct Page<'a> {
    pub bytes: &'a mut [u8],
    // Where the next text goes.
    pub end: usize,
}

impl Page<'_> {
    // A text.
    pub fn put(&mut self, text: &[u8])
        requires { self.old.end + length text.now ≤ length self.old.bytes.now }
        ensures text { Put self.old.bytes.now self.old.end text.now self.new.bytes.now self.new.end }
        ensures same_buffer { self.new.bytes.ghost_name ≡ self.old.bytes.ghost_name }
    {
        let end = self.end + text.len();
        self.bytes[self.end..end].copy_from_slice(text);
        self.end = end;
    }

    // One digit.
    fn put_digit(&mut self, digit: usize)
        requires { (self.old.end < length self.old.bytes.now) × (digit < 10) }
        ensures text { Put self.old.bytes.now self.old.end ((48 + digit) ∷ []) self.new.bytes.now self.new.end }
        ensures same_buffer { self.new.bytes.ghost_name ≡ self.old.bytes.ghost_name }
    {
        self.put(&[(48 + digit) as u8]);
    }

    // A number in decimal: first what is left of it without its last digit. `Display` of a number would do, were it not that a
    // contract of `core::fmt` promises what is written only if the writing succeeds, and the report's text is promised outright.
    fn put_number(&mut self, n: usize)
        requires { self.old.end + length (decimal n) ≤ length self.old.bytes.now }
        ensures text { Put self.old.bytes.now self.old.end (decimal n) self.new.bytes.now self.new.end }
        ensures same_buffer { self.new.bytes.ghost_name ≡ self.old.bytes.ghost_name }
    {
        if n < 10 {
            self.put_digit(n);
            return;
        }
        self.put_number(n / 10);
        self.put_digit(n % 10);
    }

    // A text and then a number.
    fn put_counted(&mut self, text: &[u8], n: usize)
        requires { self.old.end + length text.now + length (decimal n) ≤ length self.old.bytes.now }
        ensures text { Counted (length (decimal n)) self.old.bytes.now self.old.end text.now n self.new.bytes.now self.new.end }
        ensures same_buffer { self.new.bytes.ghost_name ≡ self.old.bytes.ghost_name }
    {
        self.put(text);
        self.put_number(n);
    }

    // A text and then a number of at most three digits. It and the next differ in the room that they ask for, which tells how long a line
    // can be.
    pub fn put_small(&mut self, text: &[u8], n: u8)
        requires { self.old.end + length text.now + 3 ≤ length self.old.bytes.now }
        ensures text { Counted 3 self.old.bytes.now self.old.end text.now n self.new.bytes.now self.new.end }
        ensures same_buffer { self.new.bytes.ghost_name ≡ self.old.bytes.ghost_name }
    {
        self.put_counted(text, usize::from(n));
    }

    // A text and then any number.
    pub fn put_large(&mut self, text: &[u8], n: usize)
        requires { self.old.end + length text.now + 20 ≤ length self.old.bytes.now }
        ensures text { Counted 20 self.old.bytes.now self.old.end text.now n self.new.bytes.now self.new.end }
        ensures same_buffer { self.new.bytes.ghost_name ≡ self.old.bytes.ghost_name }
    {
        self.put_counted(text, n);
    }
}
