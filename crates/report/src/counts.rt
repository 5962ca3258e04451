// The numbers of servers and queues, from tables and tally.
ghost use Rattle.std.specs.Prelude.{◌≡◌, ◌+◌, ◌≤◌, ◌<◌};
ghost use Rattle.machine.specs.All.{max_blocks, max_queues};
ghost use Rattle.constants.specs.Numbers.{kind_number};
ghost use Rattle.layout.specs.Layout as Layout;
ghost use Rattle.layout.specs.All.{server_count};
ghost use Rattle.state.specs.All.{sum_now, longest_now};
ghost use Rattle.report_laws.specs.Counts.{names, share, total, server_row, queue_row, rows_to};
ghost use Rattle.report_laws.specs.Writing.{written, put_all};

use codec::write_number;
use constants::Kind;
use layout::{
    BLOCK_WIDTH, CONTENT, CONTENT_TICKS, ENTRIES, FIRST, IN_USE, LONGEST_CONTENT, LONGEST_QL,
    QL_LENGTH, SERVERS, UNIT_TICKS, WAIT_TICKS, WAITS, count, number,
};
use state::{longest_now, sum_now};

// What the numbers of servers and queues are made of; `blocks` says how many blocks are looked at.
#[derive(Clone, Copy)]
pub struct Counts<'a> {
    pub tables: &'a [u32],
    pub tally: &'a [u64],
    pub clock: u64,
    pub blocks: usize,
    ghost few: { blocks ≤ max_blocks },
}

// Three kinds of blocks, which may be the same.
#[derive(Clone, Copy)]
struct Kinds {
    first: Kind,
    second: Kind,
    third: Kind,
}

// Who takes a server.
const TAKING: Kinds = Kinds {
    first: Kind::Seize,
    second: Kind::Enter,
    third: Kind::Preempt,
};

// Who comes to a queue.
const ARRIVING: Kinds = Kinds {
    first: Kind::Arrive,
    second: Kind::Arrive,
    third: Kind::Arrive,
};

impl Counts<'_> {
    // Block b is of one of three kinds, and its first operand is this one.
    fn names(&self, kinds: Kinds, index: usize, b: usize) -> bool
        requires { b < max_blocks }
        ensures { result
            ≡ names self.now.tables.now (kind_number kinds.first) (kind_number kinds.second) (kind_number kinds.third) index b }
    {
        let tables = self.tables;
        let at = BLOCK_WIDTH * b;
        if number(tables, at + FIRST) as usize != index {
            return false;
        }
        let kind = number(tables, at);
        kind == kinds.first.number()
            || kind == kinds.second.number()
            || kind == kinds.third.number()
    }

    fn share(&self, kinds: Kinds, index: usize, base: usize, b: usize) -> u64
        requires base_bound { base ≤ Layout.waits }
        requires b_lt_max_blocks { b < max_blocks }
        ensures { result
            ≡ share self.now.tables.now self.now.tally.now (kind_number kinds.first) (kind_number kinds.second) (kind_number kinds.third)
            index base b }
    {
        if self.names(kinds, index, b) {
            let tally = self.tally;
            count(tally, base + b)
        } else {
            0
        }
    }

    // What the tally counts at the blocks that name an index.
    fn total(&self, kinds: Kinds, index: usize, base: usize) -> u64
        requires { base ≤ Layout.waits }
        ensures { result
            ≡ total self.now.tables.now self.now.tally.now (kind_number kinds.first) (kind_number kinds.second) (kind_number kinds.third)
            index base self.now.blocks }
    {
        let mut sum: u64 = 0;
        for b in 0..self.blocks {
            sum = sum.saturating_add(self.share(kinds, index, base, b));
        }
        sum
    }

    // Of server v, brought up to date: ticks of units in use, ticks waited, the longest QL.
    fn unit_ticks(&self, v: usize) -> u64
        requires { v < server_count }
        ensures { result ≡ sum_now self.now.tally.now (Layout.unit_ticks + v) (Layout.in_use + v) v self.now.clock }
    {
        sum_now(self.tally, UNIT_TICKS + v, IN_USE + v, v, self.clock)
    }

    fn wait_ticks(&self, v: usize) -> u64
        requires { v < server_count }
        ensures { result ≡ sum_now self.now.tally.now (Layout.wait_ticks + v) (Layout.ql_length + v) v self.now.clock }
    {
        sum_now(self.tally, WAIT_TICKS + v, QL_LENGTH + v, v, self.clock)
    }

    fn longest_ql(&self, v: usize) -> u64
        requires { v < server_count }
        ensures { result ≡ longest_now self.now.tally.now (Layout.longest_ql + v) (Layout.ql_length + v) v }
    {
        longest_now(self.tally, LONGEST_QL + v, QL_LENGTH + v, v)
    }

    // Of queue q: content ticks and the longest content.
    fn content_ticks(&self, q: usize) -> u64
        requires { q < max_queues }
        ensures { result ≡ sum_now self.now.tally.now (Layout.content_ticks + q) (Layout.content + q) (server_count + q) self.now.clock }
    {
        sum_now(
            self.tally,
            CONTENT_TICKS + q,
            CONTENT + q,
            SERVERS + q,
            self.clock,
        )
    }

    fn longest_content(&self, q: usize) -> u64
        requires { q < max_queues }
        ensures { result ≡ longest_now self.now.tally.now (Layout.longest_content + q) (Layout.content + q) (server_count + q) }
    {
        longest_now(self.tally, LONGEST_CONTENT + q, CONTENT + q, SERVERS + q)
    }

    fn put_server(&self, v: usize, report: &mut [u8], at: usize) -> usize
        requires { v < server_count }
        ensures { written result report.new
            ≡ put_all (server_row self.now.tables.now self.now.tally.now self.now.clock self.now.blocks v) (written at report.old) }
    {
        let entered = write_number(report, at, self.total(TAKING, v, ENTRIES));
        let used = write_number(report, entered, self.unit_ticks(v));
        let waits = write_number(report, used, self.total(TAKING, v, WAITS));
        let waited = write_number(report, waits, self.wait_ticks(v));
        write_number(report, waited, self.longest_ql(v))
    }

    pub fn put_servers(&self, servers: usize, report: &mut [u8], at: usize) -> usize
        requires { servers ≤ server_count }
        ensures { written result report.new
            ≡ put_all (rows_to servers (server_row self.now.tables.now self.now.tally.now self.now.clock self.now.blocks))
            (written at report.old) }
    {
        let mut next = at;
        for v in 0..servers {
            next = self.put_server(v, report, next);
        }
        next
    }

    fn put_queue(&self, q: usize, report: &mut [u8], at: usize) -> usize
        requires { q < max_queues }
        ensures { written result report.new
            ≡ put_all (queue_row self.now.tables.now self.now.tally.now self.now.clock self.now.blocks q) (written at report.old) }
    {
        let arrived = write_number(report, at, self.total(ARRIVING, q, ENTRIES));
        let filled = write_number(report, arrived, self.content_ticks(q));
        write_number(report, filled, self.longest_content(q))
    }

    pub fn put_queues(&self, queues: usize, report: &mut [u8], at: usize) -> usize
        requires { queues ≤ max_queues }
        ensures { written result report.new
            ≡ put_all (rows_to queues (queue_row self.now.tables.now self.now.tally.now self.now.clock self.now.blocks))
            (written at report.old) }
    {
        let mut next = at;
        for q in 0..queues {
            next = self.put_queue(q, report, next);
        }
        next
    }
}
