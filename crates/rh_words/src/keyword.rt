//! Words that have a meaning of their own.

ghost use Rattle.std.specs.Prelude.{◌≡◌, ◌≤◌, length};
ghost use Rattle.std.specs.Str.{bytes_eq};
ghost use Rattle.rh_words.specs.Keywords.{keyword_text};

use Keyword::{
    AbftWord, AddWord, AwaitWord, CheckWord, Conserve2Word, ConserveWord, CountWord, CutWord,
    DropWord, EndWord, FaultWord, FinishWord, GenWord, GroupWord, JoinWord, LetWord, LinearWord,
    LitWord, MatrixWord, MulWord, PlainWord, ProductWord, PromiseWord, PutWord, RangeWord,
    ReplayWord, ReplicateWord, RowWord, ScaleWord, ShiftWord, Stencil1Word, Stencil2Word, SubWord,
    SumWord, TaskWord, TempWord, TotalWord, UserWord, WhenWord,
};

/// A word of a text that has a meaning of its own.
#[derive(Clone, Copy)]
pub enum Keyword {
    PromiseWord,
    TempWord,
    MatrixWord,
    RowWord,
    TaskWord,
    PlainWord,
    ReplicateWord,
    AbftWord,
    ReplayWord,
    AwaitWord,
    FinishWord,
    GroupWord,
    EndWord,
    LetWord,
    LitWord,
    GenWord,
    AddWord,
    SubWord,
    MulWord,
    ScaleWord,
    ShiftWord,
    CutWord,
    JoinWord,
    SumWord,
    CountWord,
    Stencil1Word,
    Stencil2Word,
    ProductWord,
    PutWord,
    WhenWord,
    DropWord,
    CheckWord,
    RangeWord,
    TotalWord,
    LinearWord,
    ConserveWord,
    Conserve2Word,
    UserWord,
    FaultWord,
}

/// The bytes of a keyword.
#[inline(always)]
pub fn keyword_text(keyword: Keyword) -> &'static [u8]
    ensures { result.now ≡ keyword_text keyword }
{
    match keyword {
        TempWord
        | RowWord
        | TaskWord
        | AbftWord
        | EndWord
        | LetWord
        | LitWord
        | GenWord
        | AddWord
        | SubWord
        | MulWord
        | CutWord
        | JoinWord
        | SumWord
        | PutWord
        | WhenWord
        | DropWord
        | UserWord => short_text(keyword),
        PromiseWord
        | MatrixWord
        | PlainWord
        | ReplicateWord
        | ReplayWord
        | AwaitWord
        | FinishWord
        | GroupWord
        | ScaleWord
        | ShiftWord
        | CountWord
        | Stencil1Word
        | Stencil2Word
        | ProductWord
        | CheckWord
        | RangeWord
        | TotalWord
        | LinearWord
        | ConserveWord
        | Conserve2Word
        | FaultWord => long_text(keyword),
    }
}

/// The bytes of a keyword of three or four letters.
#[inline(always)]
fn short_text(keyword: Keyword) -> &'static [u8]
    requires { length (keyword_text keyword) ≤ 4 }
    ensures { result.now ≡ keyword_text keyword }
{
    match keyword {
        TempWord => b"temp",
        RowWord => b"row",
        TaskWord => b"task",
        AbftWord => b"abft",
        EndWord => b"end",
        LetWord => b"let",
        LitWord => b"lit",
        GenWord => b"gen",
        AddWord => b"add",
        SubWord => b"sub",
        MulWord => b"mul",
        CutWord => b"cut",
        JoinWord => b"join",
        SumWord => b"sum",
        PutWord => b"put",
        WhenWord => b"when",
        DropWord => b"drop",
        UserWord => b"user",
        _ => unreachable!(),
    }
}

/// The bytes of a keyword of five letters or more.
#[inline(always)]
fn long_text(keyword: Keyword) -> &'static [u8]
    requires { 5 ≤ length (keyword_text keyword) }
    ensures { result.now ≡ keyword_text keyword }
{
    match keyword {
        PromiseWord => b"promise",
        MatrixWord => b"matrix",
        PlainWord => b"plain",
        ReplicateWord => b"replicate",
        ReplayWord => b"replay",
        AwaitWord => b"await",
        FinishWord => b"finish",
        GroupWord => b"group",
        ScaleWord => b"scale",
        ShiftWord => b"shift",
        CountWord => b"count",
        Stencil1Word => b"stencil1",
        Stencil2Word => b"stencil2",
        ProductWord => b"product",
        CheckWord => b"check",
        RangeWord => b"range",
        TotalWord => b"total",
        LinearWord => b"linear",
        ConserveWord => b"conserve",
        Conserve2Word => b"conserve2",
        FaultWord => b"fault",
        _ => unreachable!(),
    }
}

/// Whether the word is this keyword.
pub fn says_keyword(word: &[u8], keyword: Keyword) -> bool
    ensures { result ≡ bytes_eq word.now (keyword_text keyword) }
{
    is_same(word, keyword_text(keyword))
}

/// Whether two words are the same. Words are short and mostly differ at their first bytes, so that a loop that ends there
/// takes fewer steps than a comparison of whole pieces.
fn is_same(word: &[u8], other: &[u8]) -> bool
    ensures { result ≡ bytes_eq word.now other.now }
{
    if word.len() != other.len() {
        return false;
    }
    for at in 0..word.len() {
        if word[at] != other[at] {
            return false;
        }
    }
    true
}
