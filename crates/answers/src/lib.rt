// The documents' numbers and places for refusals.
#![tactic(auto)]

ghost use Rattle.std.specs.Prelude.{◌≡◌};
ghost use Rattle.definition.specs.Answer as Answer;

use definition::Refusal;

// The number of a refusal's row.
pub fn number(q: Refusal) -> usize
    ensures { result ≡ Answer.number q }
{
    match q {
        Refusal::FactsTooLong => 1,
        Refusal::FactByte(_) => 2,
        Refusal::FactName(_) => 3,
        Refusal::FactElement(_) => 4,
        Refusal::Arity(_) => 5,
        Refusal::TooManyRelations(_) => 6,
        Refusal::TooManyElements(_) => 7,
        Refusal::QueryTooLong => 8,
        Refusal::NoToken(_) => 9,
        Refusal::NoProgram(_) => 10,
        Refusal::Kind(_) => 11,
        Refusal::FreeAttributes(_) => 12,
        Refusal::TooMuch(_) => 13,
        Refusal::StoreShort(_) => 14,
        Refusal::NotInFacts => 15,
        Refusal::BufferShort => 16,
        Refusal::NoChain => 17,
        Refusal::Pattern(_) => 18,
        Refusal::Number(_) => 19,
        Refusal::FirstArity(_) => 20,
        Refusal::ResultTooLong(_) => 21,
    }
}

// The place that is returned with it.
pub fn place(q: Refusal) -> usize
    ensures { result ≡ Answer.place q }
{
    match q {
        Refusal::FactsTooLong => 32768,
        Refusal::FactByte(p) => p,
        Refusal::FactName(p) => p,
        Refusal::FactElement(p) => p,
        Refusal::Arity(p) => p,
        Refusal::TooManyRelations(p) => p,
        Refusal::TooManyElements(p) => p,
        Refusal::QueryTooLong => 16384,
        Refusal::NoToken(p) => p,
        Refusal::NoProgram(p) => p,
        Refusal::Kind(p) => p,
        Refusal::FreeAttributes(p) => p,
        Refusal::TooMuch(p) => p,
        Refusal::StoreShort(n) => n,
        Refusal::NotInFacts => 0,
        Refusal::BufferShort => 0,
        Refusal::NoChain => 0,
        Refusal::Pattern(p) => p,
        Refusal::Number(p) => p,
        Refusal::FirstArity(p) => p,
        Refusal::ResultTooLong(n) => n,
    }
}
