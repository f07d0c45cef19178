// Lists of calls of First and After, made one after the other: the contract of `run` is demand 3.
#![tactic(auto)]

ghost use Rattle.std.specs.Prelude.{◌≡◌, ◌≢◌, ◌+◌, ◌*◌, ◌/◌, ◌≤◌, length, MatchResult};
ghost use Rattle.std.proofs.lemmas.List.Edits.{sets};
ghost use Rattle.meaning.specs.Listings.{answered};
ghost use Rattle.answers.specs.Operations.{answer_of, asks};
ghost use Rattle.calls.specs.Calls.{call_of, as_point, row, run_refusal, Makes, Runs};

use book::Fault;
use sets::Pair;
use text::Refusal;

// How many pairs a list of calls has handed out, and where it has come to: before the first pair, or at a pair.
#[derive(Clone, Copy)]
pub struct Handed {
    pub count: usize,
    pub spot: Option<Pair>,
}

// One call of a listing: kind 0 goes on from the point, by First or After; any other kind is After with the pair p.
pub fn answer(text: &[u8], kind: u64, p: Pair, spot: Option<Pair>) -> Result<Option<Pair>, Refusal>
    ensures { answer_of result ≡ answered (asks text.now) (call_of kind p) (as_point spot) }
{
    if kind != 0 {
        return operations::after(text, p);
    }
    match spot {
        None => operations::first(text),
        Some(q) => operations::after(text, q),
    }
}

// Puts four numbers to place k of a slice, four numbers each.
pub fn put_row(out: &mut [u64], k: usize, row: [u64; 4])
    requires { k * 4 + 4 ≤ length out.old }
    ensures { out.new ≡ sets out.old (k * 4) row }
{
    out[k * 4..k * 4 + 4].copy_from_slice(&row);
}

// Puts an answer to place k: 1 and the pair, or 0 at the End, or 2 and the refusal's number and line.
pub fn put_answer(out: &mut [u64], k: usize, a: Result<Option<Pair>, Refusal>)
    requires { k * 4 + 4 ≤ length out.old }
    ensures { out.new ≡ sets out.old (k * 4) (row (answer_of a)) }
{
    match a {
        Ok(Some(p)) => put_row(out, k, [1, p.taken, p.held, p.denied]),
        Ok(None) => put_row(out, k, [0; 4]),
        Err(q) => put_row(out, k, [2, u64::from(q.number), q.line as u64, 0]),
    }
}

// Makes call k of a list, four numbers each: the kind, and a pair. Its answer goes to place k of `answers`; a pair that is handed out goes to
// the place in `pairs` after those that were handed out before.
pub fn one_call(
    text: &[u8],
    calls: &[u64],
    k: usize,
    before: Handed,
    answers: &mut [u64],
    pairs: &mut [u64],
) -> Handed
    requires { (k * 4 + 4 ≤ length calls.now) × (k * 4 + 4 ≤ length answers.old) × (before.count * 3 + 3 ≤ length pairs.old) }
    ensures { Makes text.now calls.now k 1 (as_point before.spot) before.count answers.old answers.new pairs.old pairs.new result }
{
    let i = k * 4;
    let p = Pair {
        taken: calls[i + 1],
        held: calls[i + 2],
        denied: calls[i + 3],
    };
    let a = answer(text, calls[i], p, before.spot);
    put_answer(answers, k, a);
    match a {
        Ok(Some(q)) => {
            page::put(pairs, before.count, q);
            Handed {
                count: before.count + 1,
                spot: Some(q),
            }
        }
        Ok(None) => before,
        Err(_) => before,
    }
}

// Makes all calls of a list, one after the other.
pub fn make_calls(
    text: &[u8],
    calls: &[u64],
    spot: Option<Pair>,
    answers: &mut [u64],
    pairs: &mut [u64],
) -> Handed
    requires { (length calls.now ≤ length answers.old) × (length calls.now / 4 * 3 ≤ length pairs.old) }
    ensures { Makes text.now calls.now 0 (length calls.now / 4) (as_point spot) 0 answers.old answers.new pairs.old pairs.new result }
{
    let m = calls.len() / 4;
    let mut r = Handed { count: 0, spot };
    for k in 0..m {
        r = one_call(text, calls, k, r, answers, pairs);
    }
    r
}

// The refusal of a list of n numbers with room for so many numbers of answers and of pairs: 16 where it is not four numbers a call, 15 where
// there is less room than for the answers or for as many pairs.
pub fn check(n: usize, answers: usize, pairs: usize) -> Result<(), Refusal>
    ensures { MatchResult result (λ _. run_refusal n answers pairs ≡ 0) (λ q. (q.number ≡ run_refusal n answers pairs) × (q.number ≢ 0) × (q.line ≡ 0)) }
{
    if n % 4 != 0 {
        return Err(Refusal::of(Fault::TableLength, 0));
    }
    if answers < n || pairs < n / 4 * 3 {
        return Err(Refusal::of(Fault::BufferShort, 0));
    }
    Ok(())
}

// Makes a list of calls through First and After from a point. Each answer goes to `answers`, four numbers each, and each pair that is handed
// out to `pairs`, three numbers each. Its contract is demand 3: `Runs` in specs/Calls.antt.
pub fn run(
    text: &[u8],
    calls: &[u64],
    spot: Option<Pair>,
    answers: &mut [u64],
    pairs: &mut [u64],
) -> Result<Handed, Refusal>
    ensures { Runs text.now calls.now (as_point spot) answers.old answers.new pairs.old pairs.new result }
{
    check(calls.len(), answers.len(), pairs.len())?;
    Ok(make_calls(text, calls, spot, answers, pairs))
}
