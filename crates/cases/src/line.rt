use vt_base::parse_decimal;

/// The greatest number in a line.
const GREATEST: u64 = 4_294_967_295;

/// The meaning of a line.
#[derive(Clone, Copy)]
pub(crate) enum Line<'a> {
    Remark,
    /// A new case.
    Case,
    /// The words of the command.
    Words(&'a str),
    /// A line of the input, without its LF.
    Input(&'a str),
    /// Spelled bytes of the input.
    Spelled(&'a str),
    /// Spelled bytes of the input, so many times.
    Repeated(u64, &'a str),
    /// Which reads of the source fail.
    Reads(&'a str),
    /// Which writes to out fail.
    Writes(&'a str),
    /// Which writes to err fail.
    Says(&'a str),
    /// The rooms of out, from the first to the last.
    Rooms(usize, usize),
    /// The room of err.
    ErrRoom(usize),
    Run,
    /// A machine of its own, opened by the session in the input.
    World,
    /// A call of that machine: its caller, and its words.
    Call(u16, &'a str),
    Unknown,
}

impl<'a> Line<'a> {
    pub(crate) fn of(line: &'a str) -> Line<'a> {
        if line.is_empty() || line.starts_with('#') {
            return Line::Remark;
        }
        if let Some(text) = line.strip_prefix('|') {
            return Line::Input(text);
        }
        if let Some(text) = line.strip_prefix('=') {
            return Line::Spelled(text);
        }
        if let Some(text) = line.strip_prefix('*') {
            return match times_of(text) {
                Some((times, piece)) => Line::Repeated(times, piece),
                None => Line::Unknown,
            };
        }
        match line.split_once(' ') {
            Some((name, rest)) => Line::named(name, rest),
            None => Line::alone(line),
        }
    }

    // A line of one word.
    fn alone(word: &'a str) -> Line<'a> {
        match word {
            "words" => Line::Words(""),
            "run" => Line::Run,
            "world" => Line::World,
            _ => Line::Unknown,
        }
    }

    // A line that begins with this word.
    fn named(name: &'a str, rest: &'a str) -> Line<'a> {
        match name {
            "case" => Line::Case,
            "words" => Line::Words(rest),
            "reads" => Line::Reads(rest),
            "writes" => Line::Writes(rest),
            "says" => Line::Says(rest),
            "room" => Line::rooms(rest, rest),
            "rooms" => match rest.split_once('-') {
                Some((first, last)) => Line::rooms(first, last),
                None => Line::Unknown,
            },
            "err-room" => match number_of(rest) {
                Some(room) => Line::ErrRoom(room as usize),
                None => Line::Unknown,
            },
            _ => match parse_decimal(name.as_bytes(), 65_535) {
                Some(p) => Line::Call(p as u16, rest),
                None => Line::Unknown,
            },
        }
    }

    fn rooms(first: &'a str, last: &'a str) -> Line<'a> {
        match (number_of(first), number_of(last)) {
            (Some(first), Some(last)) => Line::Rooms(first as usize, last as usize),
            _ => Line::Unknown,
        }
    }
}

/// The number and the text of `N TEXT`.
pub(crate) fn times_of(text: &str) -> Option<(u64, &str)> {
    let (times, piece) = text.split_once(' ')?;
    Some((number_of(times)?, piece))
}

fn number_of(word: &str) -> Option<u64> {
    parse_decimal(word.as_bytes(), GREATEST)
}
