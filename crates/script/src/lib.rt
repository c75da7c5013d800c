// The words and numbers of a script's line, with one space between them.
#![tactic(auto)]

ghost use Rattle.std.specs.Prelude.{◌≡◌, ◌<◌, IfSome};
ghost use Rattle.std.specs.Iterator.{YieldsFirst, item_count};
ghost use Rattle.script.specs.Words.{digit_of, longer, numeral_with, run_at, token_with, tokens_of, tokens_left};
ghost use Rattle.script.specs.Items.{member_after, first_member, items_of, items_up_to, items_left, command_of, given_of};

// Most items of a line.
const MOST_ITEMS: usize = 131072;

// Three first bytes are no letters, so scripts were always read: 00 begins a number, 01 leaves a token with nothing, and the items of a line
// end where a word begins with 02.
const NUMBER: u8 = 0;

const NOTHING: u8 = 1;

const END: u8 = 2;

// A number: also `a-b`, the numbers from a to b, and `a*n`, n times a.
#[derive(Clone, Copy)]
enum Run {
    One,
    To(u64),
    Times(u64),
}

// The number before the sign stands in the run; that after it, or alone, is the value in decimal, with the last two digits as a byte in
// hexadecimal.
#[derive(Clone, Copy)]
struct Numeral {
    run: Run,
    value: u64,
    byte: u8,
}

// A word is known by its first letter; where two spaces meet it has none.
#[derive(Clone, Copy)]
enum Token {
    Letters(Option<u8>),
    Digits(Numeral),
}

// The tokens of what is left of a line.
#[derive(Clone, Copy)]
struct Tokens<'a> {
    rest: &'a [u8],
}

// One of the numbers that a token stands for: how many more stand after it, and what is added from one to the next, in 64 bits.
#[derive(Clone, Copy)]
struct Member {
    value: u64,
    byte: u8,
    left: u64,
    step: u64,
}

// A word, or a number of the section that the word before it names.
#[derive(Clone, Copy)]
pub enum Item {
    Word(Option<u8>),
    Number {
        section: Option<u8>,
        value: u64,
        byte: u8,
    },
}

// What is left of a line's items.
#[derive(Clone, Copy)]
pub struct Items<'a> {
    tokens: Tokens<'a>,
    section: Option<u8>,
    member: Member,
    // How many more there may be. A limit by `take` would be no plainer: what is left would have to be read out of it.
    turns: usize,
}

// The value of a digit, 0 to 9 and A to F.
#[tactic(auto, unfolding(crate::specs::Words::digit_of))]
fn digit(c: u8) -> Option<u8>
    ensures value { result ≡ digit_of c }
    ensures below { IfSome result (λ d. d < 16) }
{
    match c {
        b'0'..=b'9' => Some(c - b'0'),
        b'A'..=b'F' => Some(c - b'A' + 10),
        _ => None,
    }
}

// A number with a digit more, in 64 bits; a longer one stays as it is.
#[tactic(auto, unfolding(crate::specs::Words::longer))]
fn with_digit(n: u64, d: u8) -> u64
    ensures { result ≡ longer n d }
{
    if n <= u64::MAX / 10 {
        return (n * 10).wrapping_add(u64::from(d));
    }
    n
}

// What follows the number before a sign.
#[tactic(auto, unfolding(crate::specs::Words::run_at))]
fn after_sign(c: u8, first: u64) -> Run
    ensures { result ≡ run_at c first }
{
    match c {
        b'-' => Run::To(first),
        b'*' => Run::Times(first),
        _ => Run::One,
    }
}

impl Numeral {
    fn with(self, d: u8) -> Numeral
        requires { d < 16 }
        ensures { result ≡ numeral_with self d }
    {
        Numeral {
            run: self.run,
            value: with_digit(self.value, d),
            byte: self.byte % 16 * 16 + d,
        }
    }

    // The first number that a token stands for.
    #[tactic(auto, unfolding(crate::specs::Items::first_member))]
    fn first(self) -> Member
        ensures { result ≡ first_member self }
    {
        let Numeral { run, value, byte } = self;
        let (value, left, step) = match run {
            Run::One => (value, 0, 0),
            Run::To(a) if a <= value => (a, value - a, 1),
            Run::To(a) => (a, a - value, u64::MAX),
            Run::Times(_) if value < 1 => (0, 0, 0),
            Run::Times(a) => (a, value - 1, 0),
        };
        Member {
            value,
            byte,
            left,
            step,
        }
    }
}

impl Token {
    // A token with a byte more: a digit, the sign after a number, or the first letter of a word.
    #[tactic(auto, unfolding(crate::specs::Words::token_with))]
    fn with(self, c: u8) -> Token
        ensures { result ≡ token_with self c }
    {
        match (self, digit(c)) {
            (Token::Digits(n), Some(d)) => Token::Digits(n.with(d)),
            (Token::Letters(_), Some(d)) => Token::Digits(Numeral {
                run: Run::One,
                value: u64::from(d),
                byte: d,
            }),
            (Token::Digits(n), None) => Token::Digits(Numeral {
                run: after_sign(c, n.value),
                value: 0,
                byte: n.byte,
            }),
            (Token::Letters(None), None) => match c {
                NUMBER => Token::Digits(Numeral {
                    run: Run::One,
                    value: 0,
                    byte: 0,
                }),
                NOTHING => self,
                _ => Token::Letters(Some(c)),
            },
            (Token::Letters(word), None) => Token::Letters(word),
        }
    }
}

impl<'a> Iterator for Tokens<'a> {
    type Item = Token;

    ghost next_gives = { YieldsFirst tokens_left };

    ghost remaining = { item_count tokens_left };

    #[tactic(auto, unfolding(crate::specs::Words::tokens_from))]
    fn next(&mut self) -> Option<Token> {
        let line = self.rest;
        if line.is_empty() {
            return None;
        }
        let mut token = Token::Letters(None);
        for (i, c) in line.iter().enumerate() {
            if *c == b' ' {
                self.rest = &line[i + 1..];
                return Some(token);
            }
            token = token.with(*c);
        }
        self.rest = &line[line.len()..];
        Some(token)
    }
}

impl<'a> Items<'a> {
    // Of a line as many as the test programs go over: a run may stand for more than anyone waits for.
    pub fn new(line: &'a [u8]) -> Items<'a>
        ensures { items_left result ≡ items_of line.now }
    {
        Items::at_most(line, MOST_ITEMS)
    }

    // A line's items, one after another, but no more than so many.
    pub fn at_most(line: &'a [u8], most: usize) -> Items<'a>
        ensures { items_left result ≡ items_up_to most line.now }
    {
        Items {
            tokens: Tokens { rest: line },
            section: None,
            member: Member {
                value: 0,
                byte: 0,
                left: 0,
                step: 0,
            },
            turns: most,
        }
    }
}

impl<'a> Iterator for Items<'a> {
    type Item = Item;

    ghost next_gives = { YieldsFirst items_left };

    ghost remaining = { item_count items_left };

    #[tactic(auto, unfolding(crate::specs::Items::items_from))]
    fn next(&mut self) -> Option<Item> {
        if self.turns == 0 {
            return None;
        }
        if 0 < self.member.left {
            self.member = Member {
                value: self.member.value.wrapping_add(self.member.step),
                byte: self.member.byte,
                left: self.member.left - 1,
                step: self.member.step,
            };
        } else {
            match self.tokens.next()? {
                Token::Digits(n) => self.member = n.first(),
                Token::Letters(Some(END)) => {
                    self.turns = 0;
                    return None;
                }
                Token::Letters(word) => {
                    self.section = word;
                    self.turns -= 1;
                    return Some(Item::Word(word));
                }
            }
        }
        self.turns -= 1;
        Some(Item::Number {
            section: self.section,
            value: self.member.value,
            byte: self.member.byte,
        })
    }
}

// The letter of the word that a line begins with.
pub fn command(line: &[u8]) -> Option<u8>
    ensures { result ≡ command_of line.now }
{
    match (Tokens { rest: line }).next()? {
        Token::Letters(word) => word,
        Token::Digits(_) => None,
    }
}

// The number with so many numbers before it on the line, or 0.
#[tactic(auto, unfolding(crate::specs::Items::given_from))]
pub fn given(line: &[u8], before: usize) -> u64
    ensures { result ≡ given_of line.now before }
{
    // Tried: the proof didn't close of `filter_map` with `nth`, nor with `skip` and `next`, over the tokens or over their numbers.
    let mut left = before;
    for token in (Tokens { rest: line }) {
        if let Token::Digits(n) = token {
            if left == 0 {
                return n.value;
            }
            left -= 1;
        }
    }
    0
}
