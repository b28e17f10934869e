//! The keywords of an architecture file.

ghost use Rattle.std.specs.Prelude.{◌≡◌, map};
ghost use Rattle.arch_file.specs.Keyword.{begins_with, keyword_in, keyword_of, stands_once, is_unread};

use vpr_text::is_text;

/// The word that a line begins with (VPR and T-VPack manual 4.30).
#[derive(Clone, Copy, PartialEq, Eq)]
pub(crate) enum Keyword {
    IoRat,
    ChanWidthIo,
    ChanWidthX,
    ChanWidthY,
    Inpin,
    Outpin,
    SubblocksPerClb,
    SubblockLutSize,
    SwitchBlockType,
    FcType,
    FcOutput,
    FcInput,
    FcPad,
    Segment,
    Switch,
}

/// Each keyword with its text.
const KEYWORDS: [(&str, Keyword); 15] = [
    ("io_rat", Keyword::IoRat),
    ("chan_width_io", Keyword::ChanWidthIo),
    ("chan_width_x", Keyword::ChanWidthX),
    ("chan_width_y", Keyword::ChanWidthY),
    ("inpin", Keyword::Inpin),
    ("outpin", Keyword::Outpin),
    ("subblocks_per_clb", Keyword::SubblocksPerClb),
    ("subblock_lut_size", Keyword::SubblockLutSize),
    ("switch_block_type", Keyword::SwitchBlockType),
    ("Fc_type", Keyword::FcType),
    ("Fc_output", Keyword::FcOutput),
    ("Fc_input", Keyword::FcInput),
    ("Fc_pad", Keyword::FcPad),
    ("segment", Keyword::Segment),
    ("switch", Keyword::Switch),
];

#[tactic(auto, unfolding(crate::specs::Keyword::begins_with))]
fn begins(word: &[u8], text: &str) -> bool
    ensures { result ≡ begins_with word.now text.now }
{
    word.starts_with(text.as_bytes())
}

/// Whether a line that begins with this word is passed over unread.
pub(crate) fn is_unread(word: &[u8]) -> bool
    ensures { result ≡ is_unread word.now }
{
    begins(word, "T_") || begins(word, "C_") || begins(word, "R_")
}

/// The keyword of the first row whose text is this word.
fn keyword_in(mut table: &[(&str, Keyword)], word: &[u8]) -> Option<Keyword>
    ensures { result ≡ keyword_in (map (λ row. (row.0.now, row.1)) table.entry.now) word.now }
{
    while let [row, rest @ ..] = table {
        if is_text(word, row.0) {
            return Some(row.1);
        }
        table = rest;
    }
    None
}

impl Keyword {
    /// The keyword that a word is, if it is one.
    #[tactic(auto, unfolding(crate::specs::Keyword::keyword_of, crate::specs::Keyword::keywords))]
    pub(crate) fn of(word: &[u8]) -> Option<Keyword>
        ensures { result ≡ keyword_of word.now }
    {
        keyword_in(&KEYWORDS, word)
    }

    /// Whether at most one line may begin with this keyword.
    pub(crate) fn stands_once(self) -> bool
        ensures { result ≡ stands_once self }
    {
        !matches!(
            self,
            Keyword::Inpin | Keyword::Outpin | Keyword::Segment | Keyword::Switch
        )
    }
}
