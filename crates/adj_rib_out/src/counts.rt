//! Columns of counts, by numbers from 0 on.

ghost use Rattle.std.specs.Prelude.{◌≡◌, ◌==◌, ◌<◌, ◌+◌, ◌^◌, length, vec_capacity};
ghost use Rattle.linked_pending.specs.Links.{link};
ghost use Rattle.adj_rib_out.specs.Stock.{fewer, more, widened};

/// The count of a number; 0 where there is none.
pub fn count_at(counts: &[usize], number: usize) -> usize
    ensures { result ≡ link counts.now number }
{
    match counts.get(number) {
        Some(count) => *count,
        None => 0,
    }
}

/// Counts one more of a number.
pub fn count_up(counts: &mut Vec<usize>, number: usize)
    requires number { number < length counts.old.items }
    requires room { link counts.old.items number + 1 < 2 ^ 64 }
    ensures { counts.new.items ≡ more counts.old.items number }
{
    counts[number] += 1;
}

/// Counts one fewer of a number, and answers whether it was the last.
pub fn count_down(counts: &mut Vec<usize>, number: usize) -> bool
    requires number { number < length counts.old.items }
    requires some { 0 < link counts.old.items number }
    ensures counts { counts.new.items ≡ fewer counts.old.items number }
    ensures last { result ≡ (link counts.old.items number == 1) }
{
    let count = counts[number];
    counts[number] = count - 1;
    count == 1
}

/// Begins the count of a number that is the next. There is space for it.
pub fn widen(counts: &mut Vec<usize>, number: usize)
    requires space { length counts.old.items < vec_capacity counts.old }
    ensures { counts.new.items ≡ widened counts.old.items number }
{
    if number == counts.len() {
        counts.push_reserved(0);
    }
}
