//! How the text of a glob is read.

ghost use Rattle.std.specs.Prelude.{◌≡◌, ◌↔◌, ◌*◌, ◌∷◌, [], IfSome, ◌<◌, ◌≤◌, ◌+◌, length, Bool, true, false, IfOk, IsTrue, MatchOption, None, Some, if◌then◌else◌, List, ◌==◌, IsSome, drop};
ghost use Rattle.std.specs.List.{position};
ghost use Rattle.glob_match.specs.Pieces.{Pieces};
ghost use Rattle.glob_match.specs.Reading.{escape, symbols_after, is_sign, character_of, ranges_of, class_at, star_at, star_tails, token_at, tokens_from, found, class_body, pieces_of_tokens, pieces_of_symbols, is_odd, negations};

use crate::piece::{CharacterRange, Found, Piece, Ranges, Single, Symbol, Token};
use sd_base::NoMemory;
use std::alloc::Global;

/// What a character stands for after a backslash.
pub fn escape(c: char) -> char
    ensures { result ≡ escape c }
{
    match c {
        'b' => '\u{8}',
        'n' => '\n',
        'r' => '\r',
        't' => '\t',
        _ => c,
    }
}

/// The symbols of a glob's text, or `None` where a backslash is last.
pub fn symbols_of(alloc: Global, text: &[char]) -> Result<Option<Vec<Symbol>>, NoMemory>
    ensures { IfOk result (λ read. MatchOption read (symbols_after false text.now ≡ None) (λ symbols. symbols_after false text.now ≡ Some symbols.items)) }
{
    let mut symbols = Vec::new(alloc);
    let mut escaped = false;
    for c in text {
        if escaped {
            symbols.push(Symbol::Escaped(escape(*c)))?;
            escaped = false;
        } else if *c == '\\' {
            escaped = true;
        } else {
            symbols.push(Symbol::Plain(*c))?;
        }
    }
    Ok(if escaped { None } else { Some(symbols) })
}

impl Symbol {
    /// Whether this is a character with no backslash before it.
    pub fn is_sign(self, sign: char) -> bool
        ensures { result ≡ is_sign sign self }
    {
        match self {
            Symbol::Plain(c) => c == sign,
            Symbol::Escaped(_) => false,
        }
    }

    /// The character that the symbol stands for where it has no other meaning.
    fn character(self) -> char
        ensures { result ≡ character_of self }
    {
        match self {
            Symbol::Plain(c) => c,
            Symbol::Escaped(c) => c,
        }
    }
}

/// The first member of a class's text, and the text after it.
fn first_range(body: &[Symbol]) -> Option<(CharacterRange, &[Symbol])>
    ensures first { MatchOption result (body.now ≡ []) (λ found. ranges_of body.now ≡ found.0 ∷ ranges_of found.1.now) }
    ensures shorter { IfSome result (λ found. length found.1.now < length body.now) }
{
    match body {
        [] => None,
        [first, dash, last, rest @ ..] if dash.is_sign('-') => {
            let range = CharacterRange {
                first: first.character(),
                last: last.character(),
            };
            Some((range, rest))
        }
        [only, rest @ ..] => {
            let range = CharacterRange {
                first: only.character(),
                last: only.character(),
            };
            Some((range, rest))
        }
    }
}

/// The members that the text of a class names.
fn ranges_of(alloc: Global, body: &[Symbol]) -> Result<Ranges, NoMemory>
    ensures { IfOk result (λ ranges. ranges ≡ ranges_of body.now) }
{
    let mut ranges = Vec::new(alloc);
    let mut rest = body;
    while let Some((range, left)) = first_range(rest) {
        ranges.push(range)?;
        rest = left;
    }
    Ok(Ranges::new(ranges))
}

/// A class, from what stands after its `[`, or `None` where it isn't closed.
fn class_at(alloc: Global, text: &[Symbol]) -> Result<Option<Found>, NoMemory>
    ensures read { IfOk result (λ read. read ≡ class_at text.now) }
    ensures within { IfOk result (λ read. IfSome read (λ one. one.more ≤ length text.now)) }
{
    let Some(first) = text.first() else {
        return Ok(None);
    };
    let negated = first.is_sign('^') || first.is_sign('!');
    let body = if negated { &text[1..] } else { text };
    class_body(alloc, negated, body)
}

/// Where the first `]` stands, as a place among these symbols.
fn class_end(text: &[Symbol]) -> Option<usize>
    ensures first { result ≡ position (is_sign 93) text.now }
    ensures within { IfSome result (λ end. end < length text.now) }
{
    text.iter().position(|symbol| symbol.is_sign(']'))
}

/// A class, from what stands after its negation, or `None` where it isn't closed.
fn class_body(alloc: Global, negated: bool, text: &[Symbol]) -> Result<Option<Found>, NoMemory>
    ensures read { IfOk result (λ read. read ≡ class_body negated text.now) }
    ensures within { IfOk result (λ read. IfSome read (λ one. one.more ≤ length text.now + (if negated then 1 else 0))) }
{
    let [first, others @ ..] = text else {
        return Ok(None);
    };
    let Some(end) = class_end(others) else {
        return Ok(None);
    };
    let ranges = ranges_of(alloc, &text[..end + 1])?;
    let class = Piece::One(Single::Class { negated, ranges });
    Ok(Some(found(class, if negated { end + 3 } else { end + 2 })))
}

/// What stands after a `/**` with which a text begins, or `None` where it begins otherwise.
fn after_tail(text: &[Symbol]) -> Option<&[Symbol]>
    ensures first { MatchOption result (star_tails text.now ≡ 0) (λ rest. star_tails text.now ≡ star_tails rest.now + 1) }
    ensures shorter { IfSome result (λ rest. length rest.now + 3 ≡ length text.now) }
{
    match text {
        [a, b, c, rest @ ..] if a.is_sign('/') && b.is_sign('*') && c.is_sign('*') => Some(rest),
        _ => None,
    }
}

/// How many `/**` stand here in a row.
fn star_tails(text: &[Symbol]) -> usize
    ensures counted { result ≡ star_tails text.now }
    ensures within { 3 * result ≤ length text.now }
{
    let mut tails = 0;
    let mut rest = text;
    while let Some(left) = after_tail(rest) {
        tails += 1;
        rest = left;
    }
    tails
}

/// A token of a piece.
fn found(piece: Piece, more: usize) -> Found
    ensures read { Some result ≡ found piece more }
    ensures as_far { result.more ≡ more }
{
    Found {
        token: Token::Piece(piece),
        more,
    }
}

/// What begins with a `*`, from what stands after it. `starts` at the glob's start and just after `/`.
fn star_at(starts: bool, text: &[Symbol]) -> Found
    ensures read { Some result ≡ star_at starts text.now }
    ensures within { result.more ≤ length text.now }
{
    let [second, after @ ..] = text else {
        return found(Piece::AnyRun, 0);
    };
    if !second.is_sign('*') {
        return found(Piece::AnyRun, 0);
    }
    let tails = star_tails(after);
    match after[3 * tails..].first() {
        None => found(Piece::AnyRest, 3 * tails + 1),
        Some(next) if next.is_sign('/') && (starts || tails != 0) => {
            found(Piece::AnyDepth, 3 * tails + 2)
        }
        Some(_) => found(Piece::AnyRun, 3 * tails + 1),
    }
}

/// The token that begins with a symbol, before the text after it, or `None` where a class isn't closed.
fn token_at(
    alloc: Global,
    starts: bool,
    symbol: Symbol,
    text: &[Symbol],
) -> Result<Option<Found>, NoMemory>
    ensures read { IfOk result (λ read. read ≡ token_at starts symbol text.now) }
    ensures within { IfOk result (λ read. IfSome read (λ one. one.more ≤ length text.now)) }
{
    let Symbol::Plain(sign) = symbol else {
        return Ok(Some(found(Piece::One(Single::Character(symbol.character())), 0)));
    };
    let token = match sign {
        '[' => return class_at(alloc, text),
        '*' => return Ok(Some(star_at(starts, text))),
        '?' => Token::Piece(Piece::One(Single::AnyCharacter)),
        '{' => Token::Open,
        ',' => Token::Comma,
        '}' => Token::Close,
        _ => Token::Piece(Piece::One(Single::Character(sign))),
    };
    Ok(Some(Found { token, more: 0 }))
}

/// The text after a token of `more` symbols after its first one, and whether it stands just after `/`.
fn after_token(text: &[Symbol], more: usize) -> (bool, &[Symbol])
    requires { more < length text.now }
    ensures passed { (first : Symbol) (others : List Symbol) → text.now ≡ first ∷ others → tokens_from more (character_of first == 47) others ≡ tokens_from 0 result.0 result.1.now }
    ensures shorter { length result.1.now < length text.now }
{
    (text[more].character() == '/', &text[more + 1..])
}

/// The tokens of a glob's symbols, or `None` where a class isn't closed.
pub fn tokens_of(alloc: Global, symbols: &[Symbol]) -> Result<Option<Vec<Token>>, NoMemory>
    ensures { IfOk result (λ read. MatchOption read (tokens_from 0 true symbols.now ≡ None) (λ tokens. tokens_from 0 true symbols.now ≡ Some tokens.items)) }
{
    let mut tokens = Vec::new(alloc);
    let mut starts = true;
    let mut rest = symbols;
    while let [first, text @ ..] = rest {
        let Some(one) = token_at(alloc, starts, *first, text)? else {
            return Ok(None);
        };
        (starts, rest) = after_token(rest, one.more);
        tokens.push(one.token)?;
    }
    Ok(Some(tokens))
}

/// Whether each brace is closed, and at most ten are open at once.
fn nests_well(tokens: &[Token]) -> bool
    ensures { IsTrue result ↔ IsSome (pieces_of_tokens (Some tokens.now)) }
{
    let mut depth: usize = 0;
    for token in tokens {
        match token {
            Token::Open if depth == 10 => return false,
            Token::Open => depth += 1,
            Token::Close if depth > 0 => depth -= 1,
            _ => {}
        }
    }
    depth == 0
}

/// The tokens of a glob's text after its `!`s, or `None` where the glob is invalid.
pub fn read(alloc: Global, text: &[char]) -> Result<Option<Vec<Token>>, NoMemory>
    ensures read { IfOk result (λ read. MatchOption read (pieces_of_symbols (symbols_after false text.now) ≡ None) (λ tokens. (pieces : Pieces) × (pieces_of_symbols (symbols_after false text.now) ≡ Some pieces) × (pieces_of_tokens (Some tokens.items) ≡ Some pieces))) }
    ensures at_most { IfOk result (λ read. IfSome read (λ tokens. length tokens.items ≤ length text.now)) }
{
    let Some(symbols) = symbols_of(alloc, text)? else {
        return Ok(None);
    };
    let Some(tokens) = tokens_of(alloc, &symbols)? else {
        return Ok(None);
    };
    Ok(if nests_well(&tokens) {
        Some(tokens)
    } else {
        None
    })
}

/// Whether an odd number of `!` stands first, and the text after them.
pub fn after_signs(glob: &[char]) -> (bool, &[char])
    ensures negated { result.0 ≡ is_odd (negations glob.now) }
    ensures rest { result.1.now ≡ drop (negations glob.now) glob.now }
{
    let mut negated = false;
    let mut rest = glob;
    while let ['!', others @ ..] = rest {
        negated = !negated;
        rest = others;
    }
    (negated, rest)
}
