//! Laws of answers.
ghost use Rattle.std.specs.Prelude.{◌≡◌, ℕ, List};
ghost use Rattle.schema_date.specs.declared.date.When.TheVariants.{Always};
ghost use Rattle.search_query.specs.Queries.{value_query};
ghost use Rattle.search_query.specs.declared.query.Query.{Query};
ghost use Rattle.search_eval.specs.Answer.{answer, answer_bytes};
ghost use Rattle.search_eval.specs.Held.{AsksForValue};
ghost use Rattle.search_eval.specs.Laws.{AnswersAreAsked};

use index_look::Look;

/// Two indexes over the same facts, whose keys accept the same, answer every query alike, and with the same text,
/// whichever way each is kept.
pub fn same_answers<A: Look, B: Look>(a: &A, b: &B)
    requires facts { A.facts a.now ≡ B.facts b.now }
    requires accepts { A.accepts a.now ≡ B.accepts b.now }
    ensures refs { (query : Query) → answer (A.facts a.now) (A.accepts a.now) query ≡ answer (B.facts b.now)
        (B.accepts b.now) query }
    ensures text { (query : Query)
        → answer_bytes (A.facts a.now) (A.accepts a.now) query ≡ answer_bytes (B.facts b.now) (B.accepts b.now) query }
{}

/// Each ref of an answer is a genuine permanode that isn't deleted at the query's date and meets its constraint then;
/// there are at most `limit` of them; and they are in the query's order, none twice. Such a permanode is left out
/// only where there are `limit` refs, each of which comes before it in that order.
pub fn answers_are_asked()
    ensures { AnswersAreAsked }
{}

/// The query of `Query::for_value` at no date asks for that value of the attribute and for nothing else, so what
/// `answer` says of its steps holds for it.
pub fn value_queries_ask()
    ensures { (name value : List ℕ) → AsksForValue (value_query name value Always) name value }
{}
