// Writes a list, a sexp or an unordered struct around a body that is already written.
ghost use Rattle.std.specs.Prelude.{◌≡◌, true, false, length, MatchOption};
ghost use Rattle.writing.specs.Things.{container, written};
ghost use Rattle.writing.specs.Answers.{is_container, rules_of, limited_write, buffer_after};
ghost use Rattle.writing.specs.Read.{written_read};

use crate::written::{Typed, refused};
use checking::check::check_body;
use numbers::refusal::{LIMIT_OUT_OF_RANGE, OUTSIDE, Reason, Refusal};
use stepping::cursor::Rules;
use walking::walk::Limits;

// The type codes of the containers. A type code is the document's own number, as callers in C have it.
const LIST: usize = 11;

const SEXP: usize = 12;

const STRUCT: usize = 13;

// The rules of a container's body, by its type; None for a type that is no container's. By a descriptor made for it, as `judge_scalar` does, it is longer: the
// code would first be tested to fit one.
#[tactic(auto, using(std::proofs::lemmas::Bool::Decides::nat_tests), unfolding(crate::specs::Answers::is_container))]
fn rules_of(type_code: usize) -> Option<Rules>
    ensures { MatchOption result (is_container type_code ≡ false) (λ r. (is_container type_code ≡ true) × (r ≡ rules_of type_code)) }
{
    match type_code {
        LIST | SEXP => Some(Rules::Sequence),
        STRUCT => Some(Rules::Fields),
        _ => None,
    }
}

// Writes a container by its type code and its body. `limit` is the most bytes that a value's annotations may have, `deepest` the depth at which a container is
// too deep.
#[tactic(auto, using(std::proofs::lemmas::Bool::Decides::nat_tests, numbers::proofs::Passing::passed_on, crate::proofs::Stages::stages), unfolding(crate::specs::Answers::write_of, crate::specs::Answers::limited_write, crate::specs::Answers::judged_container))]
pub fn write_container(
    type_code: usize,
    body: &[u8],
    limit: usize,
    deepest: usize,
    to: &mut [u8],
) -> Result<usize, Refusal>
    ensures answers { written_read result ≡ limited_write limit deepest (container type_code body.now) (length to.old) }
    ensures puts { to.new ≡ buffer_after (written (container type_code body.now)) to.old (written_read result) }
{
    let Some(limits) = Limits::new(limit, deepest) else {
        return Err(LIMIT_OUT_OF_RANGE);
    };
    let Some(rules) = rules_of(type_code) else {
        return Err(OUTSIDE);
    };
    // By `as`: the code is in range, and `u8::try_from` would have a refusal that never comes.
    let Some(value) = Typed::new(type_code as u8, body) else {
        return refused(Reason::NoSuchLength, 0);
    };
    check_body(body, rules, limits.depth - 1, limits.bytes)?;
    value.put(to)
}
