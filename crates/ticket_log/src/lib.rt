//! The log of tickets in the pages of a store, walked from its beginning to its end.

#![tactic(auto)]

ghost use Rattle.std.specs.Prelude.{◌≡◌, true, false, cond, ℕ, ◌+◌, ◌*◌, ◌/◌, ◌≤◌, ◌<◌, length, Some};
ghost use Rattle.octets.specs.Number.{number};
ghost use Rattle.octets.specs.Units.{part, unit, unit_put};
ghost use Rattle.ranges.specs.Look.{all_below, when_found};
ghost use Rattle.layout.specs.Layout.{layout_of, limits};
ghost use Rattle.layout.specs.Record.{record_at};
ghost use Rattle.steps.specs.Allowance.{images};
ghost use Rattle.rules.specs.Sound.{record_sound};
ghost use Rattle.rules.specs.Read.{fetch};
ghost use Rattle.rules.specs.Log.{carried, contents};
ghost use Rattle.rules.specs.Origins.{origin_numbered, greater as greater_of};
ghost use Rattle.fetch.specs.Into.{is_direct};
ghost use Rattle.rules.specs.Tickets.{ticket_bytes, ticket_of, ticket_sound, is_for};
ghost use Rattle.ticket_log.specs.Walks.{whole as wholeWalk, tickets_in, held_from, held_by, position_of, is_plain, PageShows, PageLooked, Walked};

use answers::origin_number;
use codec::parity_chip;
use fetch::{Got, View, is_direct, lent};
use layout::Geometry;
use octets::{copy, number_at, number_of_four};
use rules::{Origin, Ticket, Weight};

// The bytes of a ticket.
pub const TICKET: usize = 16;

// The four bytes at offset a as a word.
fn word(page: &[u8], a: usize) -> u32
    requires { a + 4 ≤ length page.now }
    ensures { result ≡ number (part a 4 page.now) }
{
    number_of_four(page, a) as u32
}

// Ticket i of a page.
pub fn ticket_in(page: &[u8], i: usize) -> Ticket
    requires { i * ticket_bytes + ticket_bytes ≤ length page.now }
    ensures { result ≡ ticket_of (unit ticket_bytes i page.now) }
{
    let a = i * TICKET;
    Ticket {
        kind: page[a],
        blank: page[a + 1],
        bag: number_at(page, a + 2) as u16,
        lot: word(page, a + 4),
        gross: word(page, a + 8),
        tare: word(page, a + 12),
    }
}

// Ticket i of a page becomes these bytes.
pub fn put_ticket(page: &mut [u8], i: usize, ticket: &[u8])
    requires { (i * ticket_bytes + ticket_bytes ≤ length page.old) × (length ticket.now ≡ ticket_bytes) }
    ensures { page.new ≡ unit_put ticket_bytes i ticket.now page.old }
{
    let start = i * TICKET;
    let end = start + TICKET;
    copy(&mut page[start..end], ticket);
}

// Whether a ticket keeps its rules. An empty one does not.
pub fn is_sound(t: Ticket) -> bool
    ensures { result ≡ ticket_sound t }
{
    ((t.kind == 1) | (t.kind == 2))
        & (t.blank == 0)
        & ((t.kind != 2) | ((t.gross == 0) & (t.tare == 0)))
        & (t.tare <= t.gross)
}

// Whether a ticket is for the lot and bag.
fn is_for(t: Ticket, lot: u32, bag: u16) -> bool
    ensures { result ≡ is_for lot bag t }
{
    (t.lot == lot) & (t.bag == bag)
}

// The one number or the other.
fn pick(test: bool, a: usize, b: usize) -> usize
    ensures { result ≡ cond test a b }
{
    if test { a } else { b }
}

// What the tickets of a page show.
#[derive(Clone, Copy)]
struct Shown {
    // so many of them are sound
    kept: usize,
    // the next one, if there is one, ends the log, or else breaks the rules
    ended: bool,
    // the latest of those that are for the lot and bag
    latest: Option<usize>,
}

// Whether ticket i of a page is sound and not for the lot and bag. It is looked at in words, without a branch, so that many are looked at in one go.
fn is_plain(page: &[u8], i: usize, lot: u32, bag: u32) -> bool
    requires { i * ticket_bytes + ticket_bytes ≤ length page.now }
    ensures { result ≡ is_plain page.now lot bag i }
{
    let a = i * TICKET;
    // kind, the zero byte, and behind them the bag
    let first = word(page, a);
    let kind = first % 65536;
    let gross = word(page, a + 8);
    ((kind == 1) | ((kind == 2) & (gross == 0)))
        & (word(page, a + 12) <= gross)
        & ((word(page, a + 4) != lot) | (first / 65536 != bag))
}

// Whether all tickets of a page are, as on nearly all pages of a log.
fn all_plain(page: &[u8], lot: u32, bag: u32) -> bool
    ensures { result ≡ all_below (length page.now / ticket_bytes) (is_plain page.now lot bag) }
{
    let per_page = page.len() / TICKET;
    // one ticket takes less than to begin a loop over many
    if per_page == 1 {
        return is_plain(page, 0, lot, bag);
    }
    let mut plain = true;
    for i in 0..per_page {
        plain = plain & is_plain(page, i, lot, bag);
    }
    plain
}

// Looks at the tickets of a page. What is carried from one to the next are numbers alone, so that it stays in registers.
fn look_at(page: &[u8], lot: u32, bag: u16) -> Shown
    ensures { PageShows page.now lot bag result }
{
    let per_page = page.len() / TICKET;
    if all_plain(page, lot, bag as u32) {
        return Shown {
            kept: per_page,
            ended: true,
            latest: None,
        };
    }
    let mut found = false;
    let mut latest = 0;
    for i in 0..per_page {
        let t = ticket_in(page, i);
        if !is_sound(t) {
            return Shown {
                kept: i,
                ended: t.kind == 0,
                latest: found.then_some(latest),
            };
        }
        let fits = is_for(t, lot, bag);
        let later = pick(fits, i, latest);
        found = found | fits;
        latest = later;
    }
    Shown {
        kept: per_page,
        ended: true,
        latest: found.then_some(latest),
    }
}

// The latest ticket so far for the lot and bag. No Option, and no enum for the origin, but numbers of one width alone: with an enum the
// compiler moved its empty bytes for every ticket, four fifths of the walk.
#[derive(Clone, Copy)]
struct Latest {
    // 0 where there is none
    kind: u32,
    gross: u32,
    tare: u32,
    // the number of how its page was got
    origin: u32,
}

// What stands after the tickets of a page that was got so.
fn latest_of(page: &[u8], shown: Shown, origin: Origin, before: Latest) -> Latest
    requires { (i : ℕ) → shown.latest ≡ Some i → i * ticket_bytes + ticket_bytes ≤ length page.now }
    ensures { held_from result ≡ when_found shown.latest (λ i. held_by (tickets_in page.now i) origin) (held_from before) }
{
    let latest = shown.latest;
    match latest {
        Some(i) => {
            let t = ticket_in(page, i);
            let kind = t.kind as u32;
            let number = origin_number(origin) as u32;
            Latest {
                kind,
                gross: t.gross,
                tare: t.tare,
                origin: number,
            }
        }
        None => before,
    }
}

// Of two origins the one of the greater number. No derived order: the numbers are the paper's, and not those of the enum's lines.
fn greater(a: Origin, b: Origin) -> Origin
    ensures { result ≡ greater_of a b }
{
    if origin_number(a) <= origin_number(b) {
        return b;
    }
    a
}

// What it lets stand.
fn standing_of(x: Latest) -> Option<Weight>
    ensures { result ≡ (held_from x).standing }
{
    if x.kind == 1 {
        return Some(Weight {
            gross: x.gross,
            tare: x.tare,
        });
    }
    None
}

// The origin of a number. No From: only `Latest` holds an origin so.
fn origin_numbered(n: u32) -> Origin
    ensures { result ≡ origin_numbered n }
{
    if n == 0 {
        return Origin::Unwritten;
    }
    if n == 1 {
        return Origin::Direct;
    }
    if n == 2 {
        return Origin::Partial;
    }
    Origin::Full
}

// How it was got: a ticket that is given carries the origin of its page, any other reading the greatest.
fn origin_of(x: Latest, greatest: Origin) -> Origin
    ensures { result ≡ carried (held_from x).standing (held_from x).origin greatest }
{
    if x.kind == 1 {
        return origin_numbered(x.origin);
    }
    greatest
}

// A logical page, where it stands.
#[derive(Clone, Copy)]
struct Position {
    page: usize,
    stripe: usize,
    member: usize,
    // the chip of the stripe's parity
    parity: usize,
}

// The first page.
fn first_page(g: Geometry) -> Position
    requires { limits (layout_of g) ≡ true }
    ensures { result ≡ position_of (layout_of g) 0 }
{
    Position {
        page: 0,
        stripe: 0,
        member: 0,
        parity: parity_chip(g, 0),
    }
}

// The next page: a remainder is taken for a stripe and not for a page.
fn next_page(g: Geometry, at: Position) -> Position
    requires { (limits (layout_of g) ≡ true) × (at ≡ position_of (layout_of g) at.page) × (at.page < g.n * g.s) }
    ensures { result ≡ position_of (layout_of g) (at.page + 1) }
{
    let member = at.member + 1;
    if member < g.n as usize {
        return Position {
            page: at.page + 1,
            stripe: at.stripe,
            member,
            parity: at.parity,
        };
    }
    let stripe = at.stripe + 1;
    Position {
        page: at.page + 1,
        stripe,
        member: 0,
        parity: parity_chip(g, stripe),
    }
}

// A page of the log, looked at.
#[derive(Clone, Copy)]
struct Looked {
    shown: Shown,
    // pages read for it
    reads: u64,
    origin: Origin,
    latest: Latest,
}

// The log of a store whose records are sound, looked at for a lot and bag.
#[derive(Clone, Copy)]
struct Log<'a> {
    view: View<'a>,
    lost: usize,
    lot: u32,
    bag: u16,
    ghost sound: { (j : ℕ) → j < view.g.s → record_sound (layout_of view.g) (record_at (layout_of view.g) view.records.now j) ≡ true },
}

impl Log<'_> {
    // A page that cannot be read off its chip is fetched to the work page.
    fn fetch_apart(&self, work: &mut [u8], at: Position, direct: bool) -> Got
        requires { (length work.old ≡ self.now.view.g.w)
            × (at ≡ position_of (layout_of self.now.view.g) at.page) × (at.page < self.now.view.g.n * self.now.view.g.s)
            × (direct ≡ is_direct (layout_of self.now.view.g) (record_at (layout_of self.now.view.g) self.now.view.records.now at.stripe) self.now.lost at.stripe at.member) }
        ensures { (result.reads ≡ (fetch (layout_of self.now.view.g) (images self.now.view.chips.now self.now.view.records.now self.now.view.slots.now) self.now.lost at.page).reads)
            × (result.reads ≤ 7)
            × (result.origin ≡ (fetch (layout_of self.now.view.g) (images self.now.view.chips.now self.now.view.records.now self.now.view.slots.now) self.now.lost at.page).origin)
            × (direct ≡ false → work.new
            ≡ contents (layout_of self.now.view.g) (images self.now.view.chips.now self.now.view.records.now self.now.view.slots.now) self.now.lost at.page) }
    {
        if direct {
            return Got {
                reads: 1,
                origin: Origin::Direct,
            };
        }
        self.view
            .fetch_member(work, self.lost, at.stripe, at.member)
    }

    // Looks at a page: where it lies, if it can be read off its chip, and else in the work page.
    fn look_at_page(&self, work: &mut [u8], at: Position, before: Latest) -> Looked
        requires { (length work.old ≡ self.now.view.g.w)
            × (at ≡ position_of (layout_of self.now.view.g) at.page) × (at.page < self.now.view.g.n * self.now.view.g.s) }
        ensures { PageLooked (layout_of self.now.view.g) (images self.now.view.chips.now self.now.view.records.now self.now.view.slots.now)
            self.now.lost self.now.lot self.now.bag at.page before result }
    {
        let v = &self.view;
        let (j, parity, m) = (at.stripe, at.parity, at.member);
        let direct = is_direct(v.records, v.g, self.lost, j, parity, m);
        let got = self.fetch_apart(work, at, direct);
        let page = lent(v.chips, work, v.records, v.g, j, parity, m, direct);
        let shown = look_at(page, self.lot, self.bag);
        let origin = got.origin;
        let latest = latest_of(page, shown, origin, before);
        Looked {
            shown,
            reads: got.reads,
            origin,
            latest,
        }
    }
}

// What a walk tells of a log none of whose tickets breaks the rules.
#[derive(Clone, Copy)]
pub struct Walk {
    // the place of its end; a log that fills every page has none
    pub end: Option<usize>,
    pub reads: u64,
    // what stands for the lot and bag
    pub standing: Option<Weight>,
    // how its page was got; where nothing stands, the greatest origin of the pages up to the log's end
    pub origin: Origin,
}

// A log whose tickets are sound, with the greatest origin of its pages.
fn whole(end: Option<usize>, reads: u64, latest: Latest, greatest: Origin) -> Walk
    ensures { result ≡ wholeWalk end reads latest greatest }
{
    Walk {
        end,
        reads,
        standing: standing_of(latest),
        origin: origin_of(latest, greatest),
    }
}

// Walks the log page by page; of a log with a ticket that breaks the rules it tells nothing.
pub fn walk_log(work: &mut [u8], view: &View<'_>, lost: usize, lot: u32, bag: u16) -> Option<Walk>
    requires { (length work.old ≡ view.now.g.w)
        × ((j : ℕ) → j < view.now.g.s → record_sound (layout_of view.now.g) (record_at (layout_of view.now.g) view.now.records.now j) ≡ true) }
    ensures { Walked (layout_of view.now.g) (images view.now.chips.now view.now.records.now view.now.slots.now) lost lot bag result }
{
    let log = Log {
        view: *view,
        lost,
        lot,
        bag,
    };
    let per_page = work.len() / TICKET;
    let pages = view.g.n as usize * view.g.s as usize;
    let mut latest = Latest {
        kind: 0,
        gross: 0,
        tare: 0,
        origin: 0,
    };
    let mut reads = 0;
    let mut greatest = Origin::Unwritten;
    let mut at = first_page(view.g);
    // a for loop would be no plainer: the position counts the pages itself
    while at.page < pages {
        let seen = log.look_at_page(work, at, latest);
        reads += seen.reads;
        latest = seen.latest;
        let origin = seen.origin;
        let with_page = greater(greatest, origin);
        greatest = with_page;
        let shown = seen.shown;
        if !shown.ended {
            return None;
        }
        if shown.kept < per_page {
            let end = Some(at.page * per_page + shown.kept);
            return Some(whole(end, reads, latest, greatest));
        }
        let next = next_page(view.g, at);
        at = next;
    }
    Some(whole(None, reads, latest, greatest))
}
