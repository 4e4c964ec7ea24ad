// RULES 13: what the program is asked for, word by word.
#![tactic(auto)]

ghost use Rattle.std.specs.Prelude.{◌≡◌};
ghost use Rattle.desk_arguments.specs.Arguments.{same_bytes, is_help, dashed, word_of, none, first_of, one_more, taken};

// A word, by itself.
#[derive(Clone, Copy)]
pub enum Word {
    Explain,
    Help,
    Version,
    End,
    Input,
    File,
    NoFlag,
}

// What is to be done, with the place of a word that is no flag.
#[derive(Clone, Copy)]
pub enum Wish {
    Score,
    Help,
    Version,
    NoFlag(usize),
}

#[derive(Clone, Copy)]
pub enum Named {
    Nothing,
    One,
    Several,
}

// By the words so far. ended: `--` was among them.
#[derive(Clone, Copy)]
pub struct Asked {
    pub wish: Wish,
    pub named: Named,
    pub explained: bool,
    pub ended: bool,
}

// A byte string is an array, which `==` takes for no slice; as an argument it is one.
#[tactic(auto, unfolding(crate::specs::Arguments::same_bytes))]
fn is_word(w: &[u8], b: &[u8]) -> bool
    ensures { result ≡ same_bytes w.now b.now }
{
    w == b
}

#[tactic(auto, unfolding(crate::specs::Arguments::is_help))]
fn is_help(w: &[u8]) -> bool
    ensures { result ≡ is_help w.now }
{
    is_word(w, b"-h") || is_word(w, b"--help")
}

#[tactic(auto, unfolding(crate::specs::Arguments::dashed))]
fn is_dashed(w: &[u8]) -> bool
    ensures { result ≡ dashed w.now }
{
    w.starts_with(b"-")
}

// ended: `--` came before it.
#[tactic(auto, unfolding(crate::specs::Arguments::word_of, crate::specs::Arguments::flag_of, crate::specs::Arguments::other_of))]
pub fn word_of(ended: bool, w: &[u8]) -> Word
    ensures { result ≡ word_of ended w.now }
{
    if is_word(w, b"-") {
        Word::Input
    } else if ended {
        Word::File
    } else if is_help(w) {
        Word::Help
    } else if is_word(w, b"--explain") {
        Word::Explain
    } else if is_word(w, b"--version") {
        Word::Version
    } else if is_word(w, b"--") {
        Word::End
    } else if is_dashed(w) {
        Word::NoFlag
    } else {
        Word::File
    }
}

pub fn nothing_asked() -> Asked
    ensures { result ≡ none }
{
    Asked {
        wish: Wish::Score,
        named: Named::Nothing,
        explained: false,
        ended: false,
    }
}

// The first that is not to score decides.
fn first_of(a: Wish, b: Wish) -> Wish
    ensures { result ≡ first_of a b }
{
    match a {
        Wish::Score => b,
        decided => decided,
    }
}

fn one_more(n: Named) -> Named
    ensures { result ≡ one_more n }
{
    match n {
        Named::Nothing => Named::One,
        Named::One | Named::Several => Named::Several,
    }
}

// With one word more, at place i.
pub fn take_word(a: Asked, i: usize, w: Word) -> Asked
    ensures { result ≡ taken a i w }
{
    match w {
        Word::Explain => Asked {
            explained: true,
            ..a
        },
        Word::Help => Asked {
            wish: first_of(a.wish, Wish::Help),
            ..a
        },
        Word::Version => Asked {
            wish: first_of(a.wish, Wish::Version),
            ..a
        },
        Word::End => Asked { ended: true, ..a },
        Word::Input | Word::File => Asked {
            named: one_more(a.named),
            ..a
        },
        Word::NoFlag => Asked {
            wish: first_of(a.wish, Wish::NoFlag(i)),
            ..a
        },
    }
}
