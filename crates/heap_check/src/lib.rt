// The first pass of put: the whole lent datum is checked before anything is stored. Document 01, "What a caller is told":
// 11 ("unknown kind, cut short, nodes left over, Bool not 0 or 1, Char or UTF-8 not allowed"), then 12 (the numbers of a
// datum), then 13 ("a label is referred to before a definition of it has begun"). One loop over the nodes, with a count
// of the data that are still wanted and a tally of the nodes so far.
#![tactic(auto)]

ghost use Rattle.std.specs.Prelude.{◌≡◌};
ghost use Rattle.heap_check.specs.Verdict.{verdict, checked_of};
ghost use Rattle.heap_tally.specs.Pass.{tally_of, judged};

use heap_tally::Tally;
use leaf_nodes::Fault;
use refusals::Refusal;

// "4,096 nodes"
const NODES: u64 = 4096;

// 12 before 13.
fn judge(tally: &Tally) -> Result<(), Refusal>
    ensures { checked_of result ≡ judged (tally_of tally.now) }
{
    if tally.nodes > NODES || tally.over {
        Err(Refusal::OverLimit)
    } else if tally.early {
        Err(Refusal::EarlyLabel)
    } else {
        Ok(())
    }
}

// The check of a whole datum. A malformed one also says what is wrong and at which node, counted from 0 in the datum's order.
pub fn check(datum: &[u8]) -> Result<(), Refusal>
    ensures { checked_of result ≡ verdict datum.now }
{
    let mut tally = Tally::new();
    let mut at = 0;
    let mut wanted = 1;
    while wanted > 0 {
        let read = leaf_nodes::read_node(&datum[at..]).map_err(|fault| Refusal::Malformed(
            fault,
            tally.nodes,
        ))?;
        at += read.size;
        wanted = heap_tally::still_wanted(
            wanted - 1,
            heap_tally::following(read.node),
            datum.len() - at,
        );
        tally.step(read.node);
    }
    if at < datum.len() {
        return Err(Refusal::Malformed(Fault::LeftOver, tally.nodes));
    }
    judge(&tally)
}
