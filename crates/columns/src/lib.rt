// The columns of a table, three lent lists: whether they are of one length, and zeros in them.
#![tactic(auto)]

ghost use Rattle.std.specs.Prelude.{◌≡◌, ◌&&◌, eqb, leb, length, replicate};

// Three lengths that are the same, 1 to 1,024.
pub fn of_one_length(roles: usize, sets: usize, spans: usize) -> bool
    ensures { result ≡ (eqb sets roles && eqb spans roles && (leb 1 roles && leb roles 1024)) }
{
    (sets == roles) & (spans == roles) & ((1 <= roles) & (roles <= 1024))
}

// Sets the three lists to zeros.
pub fn clear(roles: &mut [u32], sets: &mut [u32], spans: &mut [u64])
    ensures { (roles.new ≡ replicate (length roles.old) 0) × ((sets.new ≡ replicate (length sets.old) 0) × (spans.new ≡ replicate (length spans.old) 0)) }
{
    roles.fill(0);
    sets.fill(0);
    spans.fill(0);
}
