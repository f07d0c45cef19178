// Lists of calls of Set, Go and Drop, made one after the other (the contract of `keep` is request (h)'s promise), and going on from a name.
#![tactic(auto)]

ghost use Rattle.std.specs.Prelude.{◌≡◌, ◌≢◌, ◌+◌, ◌*◌, ◌/◌, ◌≤◌, length, MatchResult};
ghost use Rattle.answers.specs.Operations.{answer_of};
ghost use Rattle.visits.specs.Visits.{Visited, keep_refusal, Keeping};
ghost use Rattle.visits.specs.GoingOn.{go_on_answer, ListsOn};

use calls::Handed;
use entry::Name;
use sets::Pair;
use text::Refusal;

// Makes call k of a list, 33 bytes each: the kind, and a name and a pair as in an entry. Its answer goes to place k: Go's pair, or none where Set or Drop
// is done, or the refusal.
pub fn visit(store: &mut [u8], calls: &[u8], k: usize, answers: &mut [u64])
    requires { (k * 33 + 33 ≤ length calls.now) × (k * 4 + 4 ≤ length answers.old) }
    ensures { Visited calls.now k 1 store.old store.new answers.old answers.new }
{
    let i = k * 33;
    let kind = calls[i];
    let name = entry::name_at(&calls[i + 1..]);
    let answer = match kind {
        0 => points::set_point(store, name, entry::pair_at(&calls[i + 9..])).map(|()| None),
        1 => points::go_to(store, name).map(Some),
        _ => points::drop_point(store, name).map(|()| None),
    };
    calls::put_answer(answers, k, answer);
}

// Makes all calls of a list, one after the other.
pub fn visit_all(store: &mut [u8], calls: &[u8], answers: &mut [u64])
    requires { length calls.now / 33 * 4 ≤ length answers.old }
    ensures { Visited calls.now 0 (length calls.now / 33) store.old store.new answers.old answers.new }
{
    let m = calls.len() / 33;
    for k in 0..m {
        visit(store, calls, k, answers);
    }
}

// The refusal of n bytes of calls with room for so many numbers of answers: 16 where they are not 33 a call, 15 where there is less room than for the
// answers.
pub fn check(n: usize, answers: usize) -> Result<(), Refusal>
    ensures { MatchResult result (λ _. keep_refusal n answers ≡ 0) (λ q. (q.number ≡ keep_refusal n answers) × (q.number ≢ 0) × (q.line ≡ 0)) }
{
    if n % 33 != 0 {
        return Err(Refusal::new(16, 0));
    }
    if answers < n / 33 * 4 {
        return Err(Refusal::new(15, 0));
    }
    Ok(())
}

// Makes a list of calls through Set, Go and Drop on a store. Each answer goes to `answers`, four numbers each. Its contract is the promise of
// request (h) about whole lists of calls: `KeptAll` in specs/Visits.antt.
pub fn keep(store: &mut [u8], calls: &[u8], answers: &mut [u64]) -> Result<(), Refusal>
    ensures { Keeping calls.now store.old store.new answers.old answers.new result }
{
    check(calls.len(), answers.len())?;
    visit_all(store, calls, answers);
    Ok(())
}

// Going on from a name by one step: After with the pair that Go gives.
pub fn go_on(text: &[u8], store: &[u8], name: Name) -> Result<Option<Pair>, Refusal>
    ensures { answer_of result ≡ go_on_answer text.now store.now name.bytes }
{
    let p = points::go_to(store, name)?;
    operations::after(text, p)
}

// Going on from a name with a whole listing: a list of calls of First and After that begins after the pair that Go gives.
pub fn list_on(
    text: &[u8],
    store: &[u8],
    name: Name,
    calls: &[u64],
    answers: &mut [u64],
    pairs: &mut [u64],
) -> Result<Handed, Refusal>
    ensures { ListsOn text.now store.now name.bytes calls.now answers.old answers.new pairs.old pairs.new result }
{
    let from = points::go_to(store, name)?;
    calls::run(text, calls, Some(from), answers, pairs)
}
