// Reads a line byte by byte: a name, then numbers, each after one space. The name is all that comes
// before the first number, its spaces included. It is empty if the line begins with a number.
ghost use Rattle.std.specs.Prelude.{◌≡◌, ◌<◌, length};
ghost use Rattle.lines.specs.Input.{start_of, digit_of_lem, line_at, appended, with_digit_lem, with_letter_lem, name_after, closed, numbers_after};
ghost use Rattle.lines.specs.Input.{byte_line, byte_name, byte_numbers, end_line_lem, end_numbers, wrong};
ghost use Rattle.lines.specs.declared.input.Part.TheVariants.{Start, Name, Number, Gap};

const SPACE: u8 = 32;

// What the next byte may be. At Start a number may begin, or the name continues. A wrong line stays
// wrong.
#[derive(Clone, Copy, PartialEq, Eq)]
pub enum Part {
    Start,
    Name,
    Number,
    Gap,
    Wrong,
}

// A line so far: the length of its name, how many numbers are complete, and the value of the number
// that is being read.
#[derive(Clone, Copy)]
pub struct Line {
    pub part: Part,
    pub name: usize,
    pub count: usize,
    pub value: u64,
}

// Returns the value of a digit.
pub fn digit_of(b: u8) -> Option<u64>
    ensures { result ≡ digit_of_lem b }
{
    if b.is_ascii_digit() {
        Some(u64::from(b - b'0'))
    } else {
        None
    }
}

// Returns a number with one digit more, if it is not above 2^64 - 1.
pub fn append_digit(value: u64, d: u64) -> Option<u64>
    ensures { result ≡ appended value d }
{
    value.checked_mul(10)?.checked_add(d)
}

impl Line {
    pub fn new() -> Line
        ensures { result ≡ start_of }
    {
        Line {
            part: Part::Start,
            name: 0,
            count: 0,
            value: 0,
        }
    }

    fn at(self, part: Part, value: u64) -> Line
        ensures { result ≡ line_at self part value }
    {
        Line {
            part,
            value,
            ..self
        }
    }

    // Adds a digit to the number. A number above 2^64 - 1 makes the line wrong.
    fn with_digit(self, d: u64) -> Line
        ensures { result ≡ with_digit_lem self d }
    {
        match append_digit(self.value, d) {
            Some(value) => self.at(Part::Number, value),
            None => self.at(Part::Wrong, 0),
        }
    }

    // Adds a byte to the name. If there is no room for it, the line is wrong.
    fn with_letter(self, b: u8, name: &mut [u8]) -> Line
        ensures { (result ≡ with_letter_lem self b (length name.old)) × (name.new ≡ name_after self b name.old) }
    {
        let n = self.name;
        if name.len() <= n {
            return self.at(Part::Wrong, 0);
        }
        name[n] = b;
        let part = if b == SPACE { Part::Start } else { Part::Name };
        Line {
            part,
            name: n + 1,
            value: 0,
            ..self
        }
    }

    // Completes the number. If there is no room for it, the line is wrong.
    fn close(self, numbers: &mut [u64]) -> Line
        ensures { (result ≡ closed self (length numbers.old)) × (numbers.new ≡ numbers_after self numbers.old) }
    {
        let n = self.count;
        if numbers.len() <= n {
            return self.at(Part::Wrong, 0);
        }
        numbers[n] = self.value;
        Line {
            part: Part::Gap,
            count: n + 1,
            value: 0,
            ..self
        }
    }

    fn in_start(self, b: u8, name: &mut [u8]) -> Line
        ensures { (result ≡ byte_line Start self b (length name.old) 0) × (name.new ≡ byte_name Start self b name.old) }
    {
        match digit_of(b) {
            Some(d) => self.at(Part::Number, d),
            None => self.with_letter(b, name),
        }
    }

    // A digit inside a word makes the line wrong.
    fn in_name(self, b: u8, name: &mut [u8]) -> Line
        ensures { (result ≡ byte_line Name self b (length name.old) 0) × (name.new ≡ byte_name Name self b name.old) }
    {
        match digit_of(b) {
            Some(_) => self.at(Part::Wrong, 0),
            None => self.with_letter(b, name),
        }
    }

    fn in_number(self, b: u8, numbers: &mut [u64]) -> Line
        ensures { (result ≡ byte_line Number self b 0 (length numbers.old)) × (numbers.new ≡ byte_numbers Number self b numbers.old) }
    {
        match digit_of(b) {
            Some(d) => self.with_digit(d),
            None => if b == SPACE {
                self.close(numbers)
            } else {
                self.at(Part::Wrong, 0)
            },
        }
    }

    fn in_gap(self, b: u8) -> Line
        ensures { result ≡ byte_line Gap self b 0 0 }
    {
        match digit_of(b) {
            Some(d) => self.at(Part::Number, d),
            None => self.at(Part::Wrong, 0),
        }
    }

    // Returns the line with one more byte, which is not a line end. What does not fit into the
    // slices makes the line wrong.
    pub fn byte(self, b: u8, name: &mut [u8], numbers: &mut [u64]) -> Line
        ensures { (result ≡ byte_line self.part self b (length name.old) (length numbers.old))
            × (name.new ≡ byte_name self.part self b name.old)
            × (numbers.new ≡ byte_numbers self.part self b numbers.old) }
    {
        match self.part {
            Part::Start => self.in_start(b, name),
            Part::Name => self.in_name(b, name),
            Part::Number => self.in_number(b, numbers),
            Part::Gap => self.in_gap(b),
            Part::Wrong => self,
        }
    }

    // Returns the line at its end. A last number is complete. A space after a number is wrong.
    pub fn end(self, numbers: &mut [u64]) -> Line
        ensures { (result ≡ end_line_lem self.part self (length numbers.old)) × (numbers.new ≡ end_numbers self.part self numbers.old) }
    {
        match self.part {
            Part::Start | Part::Name | Part::Wrong => self,
            Part::Number => self.close(numbers),
            Part::Gap => self.at(Part::Wrong, 0),
        }
    }

    pub fn is_wrong(self) -> bool
        ensures { result ≡ wrong self.part }
    {
        self.part == Part::Wrong
    }
}
