// A sheet of ready queues: each kind is given the same numbers, asked what it holds, and drained.
#![tactic(auto)]

ghost use Rattle.std.specs.Prelude.{◌≡◌, ◌<◌, [], ◌∷◌, Some, OnOk, ◌≢◌};
ghost use Rattle.std.specs.Int.{bit_at};
ghost use Rattle.queues.specs.Lists.{times};
ghost use Rattle.queues.specs.Lowest.{marked};
ghost use Rattle.queues.specs.Meaning.{Empty};
ghost use Rattle.queues.specs.Pair.{joint};
ghost use Rattle.queues.specs.Ring.{line};

use queues::{LowestFirst, Pair, ReadyQueue, Ring, drain};

// Prints what a queue holds and the order in which it hands that over, and leaves it empty.
fn show<Q: ReadyQueue>(rt: &HostRuntime, name: &str, queue: &mut Q) -> anyhow::Result<()>
    ensures { OnOk result (Empty (Q.held queue.new)) }
{
    let before = queue.count();
    let five = queue.holds(5);
    let beyond = queue.holds(64);
    let mut list = Vec::new(rt.alloc());
    drain(queue, &mut list)?;
    let after = queue.count();
    println!(rt; "{name}: {before} held, 5 {five}, 64 {beyond}; {list:?}; {after} held")?;
    Ok(())
}

// Puts numbers, one of them twice and two of them too high, and shows the queue.
fn serve<Q: ReadyQueue>(rt: &HostRuntime, name: &str, queue: &mut Q) -> anyhow::Result<()>
    ensures { OnOk result (Empty (Q.held queue.new)) }
{
    for n in [5, 9, 2, 5, 64, 255, 63, 0] {
        queue.put(n);
    }
    show(rt, name, queue)
}

// The next three are no one generic function: which number leaves first is promised by each
// queue's own clauses, and of a `Q: ReadyQueue` a proof knows the trait's alone.

// Two different numbers leave a ring in the order in which they came.
fn in_order(a: u8, b: u8) -> (Option<u8>, Option<u8>)
    ensures { a < 64 → b < 64 → (a ≢ b) → result ≡ (Some a, Some b) }
{
    let mut ring = Ring::new();
    ring.put(a);
    ring.put(b);
    let first = ring.take();
    (first, ring.take())
}

// The lower of two numbers leaves a lowest-first queue first, though it came last.
fn lower_first(a: u8, b: u8) -> (Option<u8>, Option<u8>)
    ensures { a < b → b < 64 → result ≡ (Some a, Some b) }
{
    let mut queue = LowestFirst::new();
    queue.put(b);
    queue.put(a);
    let first = queue.take();
    (first, queue.take())
}

// Of two numbers the one whose bit is set leaves a pair first, though it came last.
fn masked_first(mask: u64, a: u8, b: u8) -> (Option<u8>, Option<u8>)
    ensures { a < 64 → b < 64 → bit_at mask a ≡ 1 → bit_at mask b ≡ 0 → result ≡ (Some a, Some b) }
{
    let mut pair = Pair::new(LowestFirst::new(), Ring::new(), mask);
    pair.put(b);
    pair.put(a);
    let first = pair.take();
    (first, pair.take())
}

// A ring whose line runs over the last of its 64 places to the first.
fn gone_round() -> Ring
    ensures { line result ≡ 7 ∷ 62 ∷ 5 ∷ [] }
{
    let mut ring = Ring::new();
    for n in 0..62 {
        ring.put(n);
        let _ = ring.take();
    }
    ring.put(7);
    ring.put(62);
    ring.put(5);
    ring
}

// A pair of two queues that hold the same number: it holds that number twice, and no put adds to that.
fn two_fives() -> Pair<Ring, LowestFirst>
    ensures { joint (λ ring. times (line ring)) marked result 5 ≡ 2 }
{
    let mut first = Ring::new();
    let mut second = LowestFirst::new();
    first.put(5);
    second.put(5);
    second.put(1);
    let mut pair = Pair::new(first, second, 0);
    pair.put(5);
    pair
}

fn main(rt: HostRuntime) -> anyhow::Result<()> {
    serve(&rt, "ring", &mut Ring::new())?;
    serve(&rt, "lowest first", &mut LowestFirst::new())?;
    serve(
        &rt,
        "pair",
        &mut Pair::new(LowestFirst::new(), Ring::new(), 0x204),
    )?;
    let inner = Pair::new(Ring::new(), LowestFirst::new(), 0x21);
    serve(
        &rt,
        "pair of a pair",
        &mut Pair::new(inner, Ring::new(), 0x25),
    )?;
    show(&rt, "ring gone round", &mut gone_round())?;
    show(&rt, "pair of two fives", &mut two_fives())?;
    let mut ring = gone_round();
    ring.clear();
    show(&rt, "cleared", &mut ring)?;
    println!(rt; "in order: {:?}", in_order(9, 4))?;
    println!(rt; "lower first: {:?}", lower_first(4, 9))?;
    println!(rt; "masked first: {:?}", masked_first(0x10, 4, 9))?;
    Ok(())
}
