// The words that begin a line, and what is to follow each.
ghost use Rattle.std.specs.Prelude.{◌≡◌, ◌≤◌, length};
ghost use Rattle.script_lines.specs.Keywords.{form, keyword_of};

#[derive(Clone, Copy)]
pub enum Keyword {
    Start,
    Create,
    Change,
    Delete,
    Erase,
    Close,
    Free,
    Write,
    Read,
    Page,
    List,
    Pulse,
    Make,
    Take,
    Lend,
    Show,
    Append,
    Latest,
}

// What may stand at a place of a line.
#[derive(Clone, Copy)]
pub enum Expected {
    Keyword,
    Number,
    // a block number, or `auto`
    Block,
    // `placement` or `block`
    Way,
    // `open` or `closed`
    Listed,
    // `store`, `words` or `bytes`
    Buffer,
    // a number, or `full`
    Length,
    LineEnd,
}

// Each keyword behind its name.
const NAMES: [(&[u8], Keyword); 18] = [
    (b"start", Keyword::Start),
    (b"create", Keyword::Create),
    (b"change", Keyword::Change),
    (b"delete", Keyword::Delete),
    (b"erase", Keyword::Erase),
    (b"close", Keyword::Close),
    (b"free", Keyword::Free),
    (b"write", Keyword::Write),
    (b"read", Keyword::Read),
    (b"page", Keyword::Page),
    (b"list", Keyword::List),
    (b"pulse", Keyword::Pulse),
    (b"make", Keyword::Make),
    (b"take", Keyword::Take),
    (b"lend", Keyword::Lend),
    (b"show", Keyword::Show),
    (b"append", Keyword::Append),
    (b"latest", Keyword::Latest),
];

// The keyword that a word is, if it is one.
pub fn keyword_of(text: &[u8]) -> Option<Keyword>
    ensures { result ≡ keyword_of text.now }
{
    let entry = NAMES.iter().find(|entry| text == entry.0)?;
    Some(entry.1)
}

impl Keyword {
    // What follows it, in this order, and then nothing more.
    pub fn form(self) -> &'static [Expected]
        ensures value { result.now ≡ form self }
        ensures upper_bound { length result.now ≤ 7 }
    {
        match self {
            Keyword::Start => &[Expected::Number; 7],
            Keyword::Create => &[Expected::Number; 5],
            Keyword::Change => &[Expected::Number; 3],
            Keyword::Delete => &[Expected::Number],
            Keyword::Erase => &[Expected::Number, Expected::Block],
            Keyword::Close => &[Expected::Number; 2],
            Keyword::Free => &[Expected::Number; 2],
            Keyword::Write => &[
                Expected::Number,
                Expected::Way,
                Expected::Number,
                Expected::Number,
                Expected::Number,
            ],
            Keyword::Read => &[Expected::Number; 4],
            Keyword::Page => &[Expected::Number; 2],
            Keyword::List => &[Expected::Number, Expected::Listed],
            Keyword::Pulse => &[Expected::Number],
            Keyword::Make => &[Expected::Number; 6],
            Keyword::Take => &[Expected::Number],
            Keyword::Lend => &[Expected::Buffer, Expected::Length],
            Keyword::Show => &[],
            Keyword::Append => &[Expected::Number; 2],
            Keyword::Latest => &[Expected::Number; 2],
        }
    }
}
