// The limit table of document 01 with document 02's delays of the clutch: twenty-two entries, the old default, the new default, the
// house's table, and the first rule that a table breaks.
#![tactic(auto)]

ghost use Rattle.std.specs.Prelude.{◌≡◌, false, ◌+◌, ◌*◌, ◌≤◌, nat_le};
ghost use Rattle.std.specs.List.{list_all};
ghost use Rattle.checks.specs.Checks.{first, numbered};
ghost use Rattle.limits.specs.Limits.{old_default, new_default, house, limits, entries, undelayed, entry, table_of};
ghost use Rattle.limits.specs.Rules.{at_least1, engine_rules, device_rules, ask_rules, route_rules, waits, delay_rules, number_of, broken_in, broken_rule};

// The rules of admission under document 01's numbers: the first eighteen entries set, then each by the limit that it asks for.
#[derive(Clone, Copy, Debug, PartialEq, Eq)]
pub enum Rule {
    Set = 1,
    SyncEx = 2,
    ZeroEx = 3,
    Open = 4,
    Close = 5,
    SetGear = 6,
    Release = 7,
    SyncDe = 8,
    ZeroDe = 9,
    SyncDl = 10,
    ZeroDl = 11,
    RouteF = 12,
    RouteN = 13,
    RouteG1 = 14,
    RouteG2 = 15,
    Delays = 16,
}

impl Rule {
    // Its number: a method, since `u8::from` would not say at a call which number is meant.
    pub fn number(self) -> u8
        ensures { result ≡ number_of self }
    {
        self as u8
    }
}

// The limits under the manual's names, in milliseconds, in the order of their entry numbers 0 to 21.
#[repr(C)]
#[derive(Clone, Copy, Debug, PartialEq, Eq)]
pub struct Table {
    pub channel_dl: u16,
    pub engine_sync_dl: u16,
    pub engine_zero_dl: u16,
    pub clutch_open_dl: u16,
    pub clutch_close_dl: u16,
    pub gear_set_dl: u16,
    pub gear_release_dl: u16,
    pub sync_ex: u16,
    pub zero_ex: u16,
    pub sync_dl: u16,
    pub zero_dl: u16,
    pub sync_de: u16,
    pub zero_de: u16,
    pub open_clutch_dl: u16,
    pub set_gear_dl: u16,
    pub release_dl: u16,
    pub close_clutch_dl: u16,
    pub change_dl: u16,
    pub clutch_open_de: u16,
    pub error_clutch_open_de: u16,
    pub clutch_close_de: u16,
    pub error_clutch_close_de: u16,
}

impl Table {
    // The old default, under which a file without a table is judged for ever.
    pub fn old_default() -> Table
        ensures { result ≡ old_default }
    {
        Table {
            channel_dl: 5,
            engine_sync_dl: 100,
            engine_zero_dl: 200,
            clutch_open_dl: 150,
            clutch_close_dl: 150,
            gear_set_dl: 300,
            gear_release_dl: 200,
            sync_ex: 150,
            zero_ex: 250,
            sync_dl: 155,
            zero_dl: 255,
            sync_de: 151,
            zero_de: 251,
            open_clutch_dl: 200,
            set_gear_dl: 350,
            release_dl: 250,
            close_clutch_dl: 200,
            change_dl: 1500,
            clutch_open_de: 0,
            error_clutch_open_de: 0,
            clutch_close_de: 0,
            error_clutch_close_de: 0,
        }
    }

    // The new default, which is handed out now: the bus of this year's vehicles needs 10 ms.
    pub fn new_default() -> Table
        ensures { result ≡ new_default }
    {
        Table {
            channel_dl: 10,
            ..Table::old_default()
        }
    }

    // The house's table for the clutch unit that reports before its plates part: the new default with delays.
    pub fn house() -> Table
        ensures { result ≡ house }
    {
        Table {
            clutch_open_de: 20,
            error_clutch_open_de: 60,
            clutch_close_de: 20,
            error_clutch_close_de: 60,
            ..Table::new_default()
        }
    }

    // The table of twenty-two entries. No `From`, here and in `entries`: docs/PROMISES.md names the two.
    pub fn of(entries: [u16; 22]) -> Table
        ensures { result ≡ table_of entries }
    {
        let [
            channel_dl,
            engine_sync_dl,
            engine_zero_dl,
            clutch_open_dl,
            clutch_close_dl,
            gear_set_dl,
            gear_release_dl,
            sync_ex,
            zero_ex,
            sync_dl,
            zero_dl,
            sync_de,
            zero_de,
            open_clutch_dl,
            set_gear_dl,
            release_dl,
            close_clutch_dl,
            change_dl,
            clutch_open_de,
            error_clutch_open_de,
            clutch_close_de,
            error_clutch_close_de,
        ] = entries;
        Table {
            channel_dl,
            engine_sync_dl,
            engine_zero_dl,
            clutch_open_dl,
            clutch_close_dl,
            gear_set_dl,
            gear_release_dl,
            sync_ex,
            zero_ex,
            sync_dl,
            zero_dl,
            sync_de,
            zero_de,
            open_clutch_dl,
            set_gear_dl,
            release_dl,
            close_clutch_dl,
            change_dl,
            clutch_open_de,
            error_clutch_open_de,
            clutch_close_de,
            error_clutch_close_de,
        }
    }

    // The twenty-two entries of the table, in their order.
    pub fn entries(self) -> [u16; 22]
        ensures { result ≡ entries self }
    {
        [
            self.channel_dl,
            self.engine_sync_dl,
            self.engine_zero_dl,
            self.clutch_open_dl,
            self.clutch_close_dl,
            self.gear_set_dl,
            self.gear_release_dl,
            self.sync_ex,
            self.zero_ex,
            self.sync_dl,
            self.zero_dl,
            self.sync_de,
            self.zero_de,
            self.open_clutch_dl,
            self.set_gear_dl,
            self.release_dl,
            self.close_clutch_dl,
            self.change_dl,
            self.clutch_open_de,
            self.error_clutch_open_de,
            self.clutch_close_de,
            self.error_clutch_close_de,
        ]
    }

    // The number of the first rule that the table breaks, 0 where it is admitted: munasirel_admit hands it to C, and `broken_rule_lem`
    // speaks of it.
    pub fn broken_rule(self) -> u8
        ensures { result ≡ broken_rule self }
    {
        match self.admit() {
            Ok(()) => 0,
            Err(rule) => rule.number(),
        }
    }

    // Admits the table, or says which rule is the first that it breaks.
    pub fn admit(self) -> Result<(), Rule>
        ensures { broken_in result ≡ broken_rule self }
    {
        if !self.is_set() {
            return Err(Rule::Set);
        }
        self.engine_rules()?;
        self.device_rules()?;
        self.ask_rules()?;
        self.route_rules()?;
        // Most tables have no delays; asked here, it spares them a call.
        if self.is_undelayed() {
            return Ok(());
        }
        self.delay_rule()
    }

    // Rules 2 and 3.
    fn engine_rules(self) -> Result<(), Rule>
        ensures { broken_in result ≡ first (numbered 2 (engine_rules self)) }
    {
        let ch = self.channel_dl;
        if u32::from(self.sync_ex) < both_ways(ch, self.engine_sync_dl) {
            return Err(Rule::SyncEx);
        }
        if u32::from(self.zero_ex) < both_ways(ch, self.engine_zero_dl) {
            return Err(Rule::ZeroEx);
        }
        Ok(())
    }

    // Rules 4 to 7.
    fn device_rules(self) -> Result<(), Rule>
        ensures { broken_in result ≡ first (numbered 4 (device_rules self)) }
    {
        let ch = self.channel_dl;
        if u32::from(self.open_clutch_dl) <= both_ways(ch, self.clutch_open_dl) {
            return Err(Rule::Open);
        }
        if u32::from(self.close_clutch_dl) <= both_ways(ch, self.clutch_close_dl) {
            return Err(Rule::Close);
        }
        if u32::from(self.set_gear_dl) <= both_ways(ch, self.gear_set_dl) {
            return Err(Rule::SetGear);
        }
        if u32::from(self.release_dl) <= both_ways(ch, self.gear_release_dl) {
            return Err(Rule::Release);
        }
        Ok(())
    }

    // Rules 8 to 11.
    fn ask_rules(self) -> Result<(), Rule>
        ensures { broken_in result ≡ first (numbered 8 (ask_rules self)) }
    {
        if self.sync_de <= self.sync_ex {
            return Err(Rule::SyncDe);
        }
        if self.zero_de <= self.zero_ex {
            return Err(Rule::ZeroDe);
        }
        if self.sync_dl < self.sync_de {
            return Err(Rule::SyncDl);
        }
        if self.zero_dl < self.zero_de {
            return Err(Rule::ZeroDl);
        }
        Ok(())
    }

    // Rules 12 to 15.
    fn route_rules(self) -> Result<(), Rule>
        ensures { broken_in result ≡ first (numbered 12 (route_rules self)) }
    {
        let change = u32::from(self.change_dl);
        let clutch = sum(self.open_clutch_dl, self.close_clutch_dl);
        let f = sum(self.sync_dl, self.set_gear_dl) + clutch;
        let n = sum(self.zero_dl, self.release_dl) + clutch;
        let g1 = sum(self.zero_ex, self.release_dl) + f;
        let g2 = n + u32::from(self.set_gear_dl);
        if change < f {
            return Err(Rule::RouteF);
        }
        if change < n {
            return Err(Rule::RouteN);
        }
        if change < g1 {
            return Err(Rule::RouteG1);
        }
        if change < g2 {
            return Err(Rule::RouteG2);
        }
        Ok(())
    }

    // Rule 16 of a table with delays.
    fn delay_rule(self) -> Result<(), Rule>
        requires { undelayed self ≡ false }
        ensures { broken_in result ≡ first (numbered 16 (delay_rules self)) }
    {
        let opens = waits(
            self.clutch_open_de,
            self.error_clutch_open_de,
            self.clutch_open_dl,
        );
        let closes = waits(
            self.clutch_close_de,
            self.error_clutch_close_de,
            self.clutch_close_dl,
        );
        if opens & closes {
            Ok(())
        } else {
            Err(Rule::Delays)
        }
    }

    // All four delays are 0.
    pub fn is_undelayed(self) -> bool
        ensures { result ≡ undelayed self }
    {
        (self.clutch_open_de == 0)
            & ((self.error_clutch_open_de == 0)
                & ((self.clutch_close_de == 0) & (self.error_clutch_close_de == 0)))
    }

    // Each of the first eighteen entries is at least 1.
    pub fn is_set(self) -> bool
        ensures { result ≡ at_least1 (limits self) }
    {
        are_set(&self.entries()[..18])
    }
}

// Each of these is at least 1.
fn are_set(limits: &[u16]) -> bool
    ensures { result ≡ list_all (λ x. nat_le 1 x) limits.now }
{
    limits.iter().all(|&limit| 1 <= limit)
}

// The entry of this number, 0 where there is none, as the definition entry has it.
pub fn entry_at(entries: &[u16; 22], number: usize) -> u16
    ensures { result ≡ entry (table_of entries.now) number }
{
    entries.get(number).copied().unwrap_or(0)
}

// A clutch order waits: its plain delay is at least 1, and its error delay beyond that and within the device's limit.
pub fn waits(plain: u16, error: u16, device: u16) -> bool
    ensures { result ≡ waits plain error device }
{
    (1 <= plain) & ((plain < error) & (error <= device))
}

// Both ways over the channel, and a limit.
pub fn both_ways(ch: u16, limit: u16) -> u32
    ensures { (result ≡ 2 * ch + limit) × (result ≤ 196605) }
{
    2 * u32::from(ch) + u32::from(limit)
}

// A limit in 32 bits.
pub fn wide(x: u16) -> u32
    ensures { (result ≡ x) × (result ≤ 65535) }
{
    u32::from(x)
}

// Two limits one after the other.
pub fn sum(a: u16, b: u16) -> u32
    ensures { (result ≡ a + b) × (result ≤ 131070) }
{
    u32::from(a) + u32::from(b)
}
