//! What the words of a line are.

ghost use Rattle.report_lines.specs.Forms.{any as any_of, behind as behind_word, count_of, ends as ends_there, fraction as fraction_at, item as item_at, next_of, one as one_of, pair as pair_at, some as some_of, the as the_word, whole as whole_at};
ghost use Rattle.report_lines.specs.Words.{words_of};
ghost use Rattle.std.specs.Prelude.{◌≡◌, ◌↔◌, IsTrue, None, Some};
ghost use Rattle.std.specs.Str.{bytes_eq};

use crate::spelled::{is_fraction, is_pair, is_whole};
use crate::words::Words;
use std::marker::Model;

/// What a word, or the words of an item, are to be.
#[derive(Clone, Copy)]
pub(crate) enum Kind {
    /// A whole number.
    Whole,
    /// A fraction in lowest terms.
    Fraction,
    /// Two whole numbers with a colon between.
    Pair,
    /// An item of a certificate.
    Item,
}

/// The words of a line that aren't taken yet, or none where a word wasn't what it was to be.
#[derive(Drop)]
pub(crate) struct Pattern<'a> {
    words: Option<Words<'a>>,
}

impl<'a> Model for Pattern<'a> {
    ghost use Rattle.report_lines.specs.Forms.{Rest};

    ghost Value = { Rest };

    ghost view = { λ p. p.words };
}

impl<'a> Pattern<'a> {
    /// All words of a line.
    pub(crate) fn of(line: &'a [u8]) -> Pattern<'a>
        ensures { result ≡ Some (words_of line.now) }
    {
        Pattern {
            words: Some(Words::of(line)),
        }
    }

    /// The same words.
    fn same(&self) -> Pattern<'a>
        ensures { result ≡ self.now }
    {
        match &self.words {
            Some(words) => Pattern {
                words: Some(words.same()),
            },
            None => Pattern { words: None },
        }
    }

    /// Whether all words were taken.
    pub(crate) fn ends(&self) -> bool
        ensures { result ≡ ends_there self.now }
    {
        match &self.words {
            Some(words) => words.is_done(),
            None => false,
        }
    }

    /// Behind the next word, if there is one and it passes.
    fn behind(&self, passes: bool) -> Pattern<'a>
        ensures { result ≡ behind_word passes self.now }
    {
        match &self.words {
            Some(words) => Pattern {
                words: after(words, passes),
            },
            None => Pattern { words: None },
        }
    }

    /// The next word, or an empty one.
    fn next(&self) -> &'a [u8]
        ensures { result.now ≡ next_of self.now }
    {
        match &self.words {
            Some(words) => words.same().word(),
            None => &[],
        }
    }

    /// How many words are left.
    fn count(&self) -> usize
        ensures { result ≡ count_of self.now }
    {
        match &self.words {
            Some(words) => words.count(),
            None => 0,
        }
    }

    /// Behind this word.
    #[tactic(auto, unfolding(crate::specs::Forms::the))]
    pub(crate) fn the(&self, name: &[u8]) -> Pattern<'a>
        ensures { result ≡ the_word name.now self.now }
    {
        self.behind(self.next() == name)
    }

    /// Behind a whole number.
    #[tactic(auto, unfolding(crate::specs::Forms::whole))]
    pub(crate) fn whole(&self) -> Pattern<'a>
        ensures { result ≡ whole_at self.now }
    {
        self.behind(is_whole(self.next()))
    }

    /// Behind a fraction.
    #[tactic(auto, unfolding(crate::specs::Forms::fraction))]
    pub(crate) fn fraction(&self) -> Pattern<'a>
        ensures { result ≡ fraction_at self.now }
    {
        self.behind(is_fraction(self.next()))
    }

    /// Behind two whole numbers with a colon between.
    #[tactic(auto, unfolding(crate::specs::Forms::pair))]
    fn pair(&self) -> Pattern<'a>
        ensures { result ≡ pair_at self.now }
    {
        self.behind(is_pair(self.next()))
    }

    /// Behind an item of a certificate.
    #[tactic(auto, unfolding(crate::specs::Forms::item))]
    fn item(&self) -> Pattern<'a>
        ensures { result ≡ item_at self.now }
    {
        if self.next_is(b"level") {
            self.the(b"level").whole().whole().whole()
        } else {
            self.the(b"gain").whole().whole().whole().whole()
        }
    }

    /// Whether the next word is this one.
    fn next_is(&self, name: &[u8]) -> bool
        ensures { result ≡ bytes_eq (next_of self.now) name.now }
    {
        self.next() == name
    }

    /// Behind one of a kind.
    fn one(&self, kind: Kind) -> Pattern<'a>
        ensures { result ≡ one_of kind self.now }
    {
        match kind {
            Kind::Whole => self.whole(),
            Kind::Fraction => self.fraction(),
            Kind::Pair => self.pair(),
            Kind::Item => self.item(),
        }
    }

    /// Behind as many of a kind as there are.
    #[tactic(auto, unfolding(crate::specs::Forms::any))]
    pub(crate) fn any(&self, kind: Kind) -> Pattern<'a>
        ensures { result ≡ any_of kind self.now }
    {
        let mut last = self.same();
        for _ in 0..self.count() {
            let next = last.one(kind);
            if next.is_none() {
                return last;
            }
            last = next;
        }
        last
    }

    /// Whether a word wasn't what it was to be.
    fn is_none(&self) -> bool
        ensures { IsTrue result ↔ (self.now ≡ None) }
    {
        self.words.is_none()
    }

    /// Behind one or more of a kind.
    #[tactic(auto, unfolding(crate::specs::Forms::some))]
    pub(crate) fn some(&self, kind: Kind) -> Pattern<'a>
        ensures { result ≡ some_of kind self.now }
    {
        self.one(kind).any(kind)
    }
}

/// The words behind the next, if there is one and it passes.
fn after<'a>(words: &Words<'a>, passes: bool) -> Option<Words<'a>>
    ensures { result ≡ behind_word passes (Some words.now) }
{
    if passes && !words.is_done() {
        let mut rest = words.same();
        rest.skip();
        Some(rest)
    } else {
        None
    }
}
