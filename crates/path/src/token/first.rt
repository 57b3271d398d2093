// The token that a text begins with.
ghost use Rattle.std.specs.Prelude.{◌≡◌};
ghost use Rattle.std.specs.Option.{option_map};
ghost use Rattle.name.specs.Names.{bytes_of};
ghost use Rattle.path.specs.Tokens.{shape, sign_at, token_at};

use crate::token::Token;
use name::name::Part;

// The slashes or the star that the bytes begin with, or their end; none where they begin with a name.
fn sign(rest: &[u8]) -> Option<Token<'_>>
    ensures { option_map shape result ≡ sign_at rest.now }
{
    match rest {
        [] => Some(Token::End),
        [b'/', b'/', ..] => Some(Token::Deep),
        [b'/', ..] => Some(Token::Child),
        [b'*', ..] => Some(Token::Star),
        _ => None,
    }
}

pub fn first_token(part: Part) -> Token
    ensures { shape result ≡ token_at part.entry.at (bytes_of part.entry) }
{
    if part.at >= part.text.len() {
        return Token::End;
    }
    match sign(&part.text[part.at..]) {
        Some(token) => token,
        None => Token::Name(Part {
            text: &part.text[0..part.end_before(b'/')],
            at: part.at,
        }),
    }
}
