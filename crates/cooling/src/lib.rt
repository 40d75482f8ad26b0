// SPECIFICATION 6.5: the keys that were found unresponsive, in place in their 256 stored times. The clock is `clock` here, since `now` in a contract
// reads what a slice holds.
#![tactic(auto)]

ghost use Rattle.std.specs.Prelude.{◌≡◌, map, suc, ◌≤◌, length, get_or};
ghost use Rattle.model.specs.Numbers.{max_clock, max_seat};
ghost use Rattle.model.specs.Cooling.{cools, cooling_noted};
ghost use Rattle.cooling.specs.InPlace.{kept};

// `cools`: a key is cooling while its age is under the cooldown.
pub fn cools(cooldown: u64, clock: u64, stored: u64) -> bool
    requires { clock ≤ max_clock }
    ensures { result ≡ cools cooldown clock stored }
{
    if stored == 0 {
        return false;
    }
    numbers::age(clock, stored) < cooldown
}

// `kept`: what stays of one stored time.
fn kept(cooldown: u64, clock: u64, stored: u64) -> u64
    requires { clock ≤ max_clock }
    ensures { result ≡ kept cooldown clock stored }
{
    if cools(cooldown, clock, stored) {
        return stored;
    }
    0
}

// Drops the keys that have cooled: the first half of `cooling_noted`.
fn drop_cooled(table: &mut [u64], cooldown: u64, clock: u64)
    requires { clock ≤ max_clock }
    ensures { table.new ≡ map (kept cooldown clock) table.old }
{
    for stored in table.iter_mut() {
        *stored = kept(cooldown, clock, *stored);
    }
}

// `cooling_noted`, what `mark_peer_unresponsive` does to the table.
pub fn mark_unresponsive(table: &mut [u64], cooldown: u64, key: u64, clock: u64)
    requires { (length table.old ≡ suc max_seat) × (key ≤ max_seat) × (clock ≤ max_clock) }
    ensures { table.new ≡ cooling_noted cooldown key clock table.old }
{
    let k = key as usize;
    let stored = clock + 1;
    drop_cooled(table, cooldown, clock);
    table[k] = stored;
}

// `cools` of a key in the table, what `peer_in_staller_cooldown` asks.
pub fn is_cooling(table: &[u64], cooldown: u64, key: u64, clock: u64) -> bool
    requires { (length table.now ≡ suc max_seat) × (key ≤ max_seat) × (clock ≤ max_clock) }
    ensures { result ≡ cools cooldown clock (get_or table.now key 0) }
{
    let k = key as usize;
    cools(cooldown, clock, table[k])
}
