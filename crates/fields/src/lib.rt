// The fields of a job, each read at a cursor: its value with the next cursor, or the refusal. Nothing is assumed of bytes or cursor.
// Each answer means what the paper's reader of that field gives, so there is one answer for every job and place.
// A field's read is taken apart by `let .. else`, as the rules paper has it; what is read of several fields hands its refusal on.
#![tactic(auto)]

ghost use Rattle.std.specs.Prelude.{◌≡◌, ◌≤◌, take, drop};
ghost use Rattle.model.specs.Job.{field, read_byte, read_half, read_word, read_count, read_number, read_up_to, read_mark, read_version, read_end};
ghost use Rattle.fields.specs.Means.{number_of, refused_at, of_read, of_step, within};
ghost use Rattle.fields.specs.InTurn.{TimesRead};

use arrayvec::ArrayVec;

// A place in the job.
#[derive(Clone, Copy, Debug, PartialEq, Eq)]
pub struct Cursor {
    pub at: usize,
}

// What is wrong with a job, in the order of the paper's numbers 1 to 10.
#[derive(Clone, Copy, Debug, PartialEq, Eq)]
pub enum Fault {
    Short,
    Long,
    Ends,
    Mark,
    Version,
    Limit,
    Kind,
    Relation,
    Side,
    Rest,
}

// The number of a refusal and its place. Whoever makes one may give any number, so it is a number here; `Fault` names those of the paper.
#[derive(Clone, Copy, Debug, PartialEq, Eq)]
pub struct Refusal {
    pub number: u8,
    pub place: usize,
}

// What was read, with the next cursor; or the refusal.
pub type Read<T> = Result<(T, Cursor), Refusal>;

// The next cursor, or the refusal.
pub type Step = Result<Cursor, Refusal>;

impl Fault {
    // The paper's number.
    pub fn number(self) -> u8
        ensures { result ≡ number_of self }
    {
        match self {
            Fault::Short => 1,
            Fault::Long => 2,
            Fault::Ends => 3,
            Fault::Mark => 4,
            Fault::Version => 5,
            Fault::Limit => 6,
            Fault::Kind => 7,
            Fault::Relation => 8,
            Fault::Side => 9,
            Fault::Rest => 10,
        }
    }
}

impl Refusal {
    pub fn new(number: u8, place: usize) -> Self
        ensures { result ≡ record { number = number; place = place } }
    {
        Refusal { number, place }
    }
}

// A fault at a place, in place of what was to be read.
pub fn refuse<T>(fault: Fault, place: usize) -> Result<T, Refusal>
    ensures { result ≡ Err (refused_at fault place) }
{
    Err(Refusal::new(fault.number(), place))
}

// A number that was read, from low to high; refusal 6 at its start otherwise.
fn within(read: Read<u32>, low: u32, high: u32, start: usize) -> Read<u32>
    ensures { of_read (λ x. x) result ≡ within low high start (of_read (λ x. x) read) }
{
    let Ok((x, next)) = read else {
        return read;
    };
    if x < low {
        return refuse(Fault::Limit, start);
    }
    if high < x {
        return refuse(Fault::Limit, start);
    }
    Ok((x, next))
}

// n of the same, one after the other, in a list; the first refusal is handed on.
pub fn times<T: Default + Drop, const N: usize, F: Fn(Cursor) -> Read<T>>(
    from: Cursor,
    n: usize,
    read: F,
) -> Read<ArrayVec<T, N>>
    requires room { n ≤ N }
    requires callable { F.IsAlwaysCallable read }
    ensures { TimesRead (λ c r. F.post read c r) from n result }
{
    let mut made = ArrayVec::new();
    let mut cur = from;
    for _ in 0..n {
        let (x, next) = read(cur)?;
        made.push(x);
        cur = next;
    }
    Ok((made, cur))
}

impl Cursor {
    pub fn new(at: usize) -> Self
        ensures { result ≡ record { at = at } }
    {
        Cursor { at }
    }

    // A field of N bytes.
    fn bytes<const N: usize>(self, s: &[u8]) -> Read<[u8; N]>
        ensures { of_read (λ b. b) result ≡ field N (λ bs at. take N (drop at bs)) s.now self.at }
    {
        let at = self.at;
        let Some(rest) = s.get(at..) else {
            return refuse(Fault::Ends, at);
        };
        let Some(field) = rest.first_chunk::<N>() else {
            return refuse(Fault::Ends, at);
        };
        Ok((*field, Cursor { at: at + N }))
    }

    // A field of one byte.
    pub fn byte(self, s: &[u8]) -> Read<u32>
        ensures { of_read (λ x. x) result ≡ read_byte s.now self.at }
    {
        let ([byte], next) = self.bytes::<1>(s)?;
        Ok((u32::from(byte), next))
    }

    // A field of two bytes, little-endian. What the widths share is `bytes`; how a number is made of them differs.
    fn half(self, s: &[u8]) -> Read<u32>
        ensures { of_read (λ x. x) result ≡ read_half s.now self.at }
    {
        let (half, next) = self.bytes::<2>(s)?;
        Ok((u32::from(u16::from_le_bytes(half)), next))
    }

    // A field of four bytes, little-endian.
    fn word(self, s: &[u8]) -> Read<u32>
        ensures { of_read (λ x. x) result ≡ read_word s.now self.at }
    {
        let (word, next) = self.bytes::<4>(s)?;
        Ok((u32::from_le_bytes(word), next))
    }

    // A number of one byte, from low to high.
    pub fn count(self, s: &[u8], low: u32, high: u32) -> Read<u32>
        ensures { of_read (λ x. x) result ≡ read_count low high s.now self.at }
    {
        within(self.byte(s), low, high, self.at)
    }

    // A number of two bytes, up to high. Each kind of number of the paper is a reader of its own; what they share is `within`.
    pub fn number(self, s: &[u8], high: u32) -> Read<u32>
        ensures { of_read (λ x. x) result ≡ read_number high s.now self.at }
    {
        within(self.half(s), 0, high, self.at)
    }

    // A number of four bytes, up to high.
    pub fn up_to(self, s: &[u8], high: u32) -> Read<u32>
        ensures { of_read (λ x. x) result ≡ read_up_to high s.now self.at }
    {
        within(self.word(s), 0, high, self.at)
    }

    // The mark.
    pub fn mark(self, s: &[u8]) -> Step
        ensures { of_step result (tt {0}) ≡ read_mark s.now self.at }
    {
        let (mark, next) = self.bytes::<3>(s)?;
        if mark == *b"CHS" {
            Ok(next)
        } else {
            refuse(Fault::Mark, self.at)
        }
    }

    // The version is 1.
    pub fn version(self, s: &[u8]) -> Step
        ensures { of_step result (tt {0}) ≡ read_version s.now self.at }
    {
        let half = self.half(s);
        let Ok((v, next)) = half else {
            return Err(half.unwrap_err());
        };
        if v == 1 {
            Ok(next)
        } else {
            refuse(Fault::Version, self.at)
        }
    }

    // Nothing follows.
    pub fn end(self, s: &[u8]) -> Step
        ensures { of_step result (tt {0}) ≡ read_end s.now self.at }
    {
        if self.at == s.len() {
            Ok(self)
        } else {
            refuse(Fault::Rest, self.at)
        }
    }
}
