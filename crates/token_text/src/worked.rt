//! Worked rows, which show that the definitions say what is meant.

ghost use Rattle.std.specs.Prelude.{◌≡◌, [], ◌∷◌, ◌++◌, codes, map};
ghost use Rattle.token_text.specs.Tokens.{open_brace, close_brace, quoted, word, unclosed, ended, stream_of, next};

/// A law: the tokens of two lines, `NFG,1 R{"a\"b,c"}x{` and `"\`, by their kinds and places, and the end of
/// a text of blanks alone.
pub fn token_places()
    ensures kinds { map (λ t. t.kind) (stream_of (codes "NFG,1 R{\"a\\\"b,c\"}x{\n\"\\")).tokens ≡ word (codes "NFG") ∷ word (codes "1") ∷ word (codes "R") ∷ open_brace ∷ quoted (codes "a\"b,c") ∷ close_brace ∷ word (codes "x") ∷ open_brace ∷ unclosed ∷ [] }
    ensures places { map (λ t. t.at) (stream_of (codes "NFG,1 R{\"a\\\"b,c\"}x{\n\"\\")).tokens ≡ 0 ∷ 4 ∷ 6 ∷ 7 ∷ 8 ∷ 16 ∷ 17 ∷ 18 ∷ 20 ∷ [] }
    ensures end { next (stream_of (codes " ,\n")) ≡ record { at = 3; kind = ended } }
{}
