use aria_page::Name;

/// What stands at a place of a line. A text is the bytes between its quotes, as they stand there.
#[derive(Clone, Copy)]
pub enum Token<'a> {
    Word(Name),
    Number(i64),
    /// A number that doesn't fit 64 bits with sign.
    Wide,
    /// A text in which each quote is doubled.
    Quoted(&'a [u8]),
    /// A text of two hexadecimal digits for each byte.
    Hex(&'a [u8]),
    Sign(u8),
    End,
    /// No token begins.
    Stray,
}
