use crate::position::line_numbered;

/// What a row of a script is, by its first word.
#[derive(Clone, Copy, Debug, PartialEq, Eq)]
pub enum Row {
    User,
    Group,
    Dir,
    File,
    Link,
    Process,
    Thread,
    Reply,
    Policy,
    Store,
    Put,
    Call,
    Fork,
    Reload,
    End,
    /// No row of a script begins so.
    Unknown,
}

const ROWS: [(&[u8], Row); 15] = [
    (b"user", Row::User),
    (b"group", Row::Group),
    (b"dir", Row::Dir),
    (b"file", Row::File),
    (b"link", Row::Link),
    (b"process", Row::Process),
    (b"thread", Row::Thread),
    (b"reply", Row::Reply),
    (b"policy", Row::Policy),
    (b"store", Row::Store),
    (b"put", Row::Put),
    (b"call", Row::Call),
    (b"fork", Row::Fork),
    (b"reload", Row::Reload),
    (b"end", Row::End),
];

fn is_blank(byte: u8) -> bool {
    matches!(byte, b' ' | b'\t' | b'\r')
}

/// What stands in the line of this number, from its first byte that is no blank.
pub fn row_numbered(text: &[u8], number: u32) -> &[u8] {
    let line = line_numbered(text, number);
    let blanks = line.iter().take_while(|byte| is_blank(**byte)).count();
    &line[blanks.min(line.len())..]
}

/// The letters with which a row begins.
pub fn first_word(row: &[u8]) -> &[u8] {
    let len = row
        .iter()
        .take_while(|byte| byte.is_ascii_alphabetic())
        .count();
    &row[..len.min(row.len())]
}

impl Row {
    /// What a row is that begins with this word.
    pub fn of_word(first: &[u8]) -> Self {
        for (word, kind) in ROWS {
            if first == word {
                return kind;
            }
        }
        Row::Unknown
    }

    /// Whether such a row is in the body of a thread.
    pub fn is_instruction(self) -> bool {
        matches!(
            self,
            Row::Store | Row::Put | Row::Call | Row::Fork | Row::Reload | Row::End
        )
    }
}
