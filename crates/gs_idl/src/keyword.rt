// Words that a main program has for itself.
ghost use Rattle.std.specs.Prelude.{◌≡◌};
ghost use Rattle.std.specs.List.{list_any};
ghost use Rattle.std.specs.Str.{bytes_eq};
ghost use Rattle.gs_idl.specs.Word.{is_keyword};

fn stands_in(word: &[u8], words: &[&[u8]]) -> bool
    ensures { result ≡ list_any (λ k. bytes_eq word.now k.now) words.now }
{
    for other in words {
        if word == *other {
            return true;
        }
    }
    false
}

static KEYWORDS: [&[u8]; 24] = [
    b"main",
    b"int",
    b"char",
    b"FILE",
    b"void",
    b"if",
    b"else",
    b"while",
    b"for",
    b"return",
    b"GS_On",
    b"GS_Off",
    b"GS_Barrier",
    b"GS_FOpen",
    b"GS_FClose",
    b"printf",
    b"fprintf",
    b"sprintf",
    b"fgetline",
    b"atoi",
    b"strcmp",
    b"R",
    b"W",
    b"A",
];

/// The word is a keyword of a main program.
#[tactic(auto, unfolding(crate::specs::Word::is_keyword))]
pub(crate) fn is_keyword(word: &[u8]) -> bool
    ensures { result ≡ is_keyword word.now }
{
    stands_in(word, &KEYWORDS)
}
