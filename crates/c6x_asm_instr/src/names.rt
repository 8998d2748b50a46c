ghost use Rattle.std.specs.Prelude.{◌≡◌, codes};
ghost use Rattle.std.specs.Str.{bytes_eq};
ghost use Rattle.c6x_asm_instr.specs.Keywords.{keyword_name, keyword_of};

use crate::keyword::Keyword;
use c6x_asm_lines::{Names, row_named, same_bytes};

const KEYWORDS: [Keyword; 12] = [
    Keyword::Sect,
    Keyword::Word,
    Keyword::Half,
    Keyword::Byte,
    Keyword::Space,
    Keyword::Align,
    Keyword::Global,
    Keyword::Weak,
    Keyword::Hidden,
    Keyword::Common,
    Keyword::NearCommon,
    Keyword::Set,
];

fn keyword_name(keyword: Keyword) -> &'static [u8]
    ensures { result.now ≡ keyword_name keyword }
{
    match keyword {
        Keyword::Sect => b".sect",
        Keyword::Word => b".word",
        Keyword::Half => b".half",
        Keyword::Byte => b".byte",
        Keyword::Space => b".space",
        Keyword::Align => b".align",
        Keyword::Global => b".global",
        Keyword::Weak => b".weak",
        Keyword::Hidden => b".hidden",
        Keyword::Common => b".common",
        Keyword::NearCommon => b".nearcommon",
        Keyword::Set => b".set",
    }
}

struct KeywordNames;

impl Names<Keyword> for KeywordNames {
    ghost is_name = { λ keyword word. bytes_eq word (keyword_name keyword) };

    fn is_name(row: Keyword, word: &[u8]) -> bool {
        same_bytes(word, keyword_name(row))
    }
}

/// The directive with this name.
#[tactic(auto, unfolding(crate::specs::Keywords::keyword_of))]
pub fn keyword_of(word: &[u8]) -> Option<Keyword>
    ensures { result ≡ keyword_of word.now }
{
    row_named::<KeywordNames, _>(&KEYWORDS, word)
}
