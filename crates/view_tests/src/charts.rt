//! Charts, as whole pages and by what they count.
use history_reader::read_transcript;
use net_base::{ActorName, Entry, Event, History, Octets, Reply, World};
use net_chart::{chart_of, chart_of_talks};
use std::alloc::{AllocError, Global};
use std::process::Abort;
use world_file::read_world;

const WORLD: &[u8] = b"networld 1
end 60000
seed 7
medium ether0 1500
host anna udp
if ether0 135.104.9.6 255.255.255.0
host helix udp
if ether0 135.104.9.31 255.255.255.0
script anna
until 1
ndb
";

// A datagram that comes twice, the second time late, and one that is lost. No run has these entries alone.
const HISTORY: &[u8] =
    b"0 0 0 conv.0.udp.0 - write 1 3c263e = count 3 + udp 135.104.9.6!5000 135.104.9.31!7 255 0 3
1 0 0 medium.0 0 put 1 = laid 1
2 0 2 medium.0 - take = copy 1
3 5 2 medium.0 - take = copy 1
4 5 0 conv.0.udp.0 - write 1 68 = count 1 + udp 135.104.9.6!5000 135.104.9.31!7 255 0 1
5 5 0 medium.0 4 put 1 = laid 2
6 5 1 conv.1.udp.0 - read 1 8192 = bytes 3c263e
";

// How each page looks.
const STYLE: &[u8] = b"<style>
text{font:10px monospace;fill:#222}
line,path{stroke:#357;fill:none}
.host{font:bold 14px sans-serif;text-anchor:middle}
.life{stroke:#bbb}
.moment{stroke:#ddd}
.when{fill:#888}
.right{text-anchor:start}
.left{text-anchor:end}
.again{stroke:#a60}
line.again{stroke-dasharray:5 3}
.lost{stroke:#c22}
.op{fill:#262}
</style>
<rect width='100%' height='100%' fill='#fff'/>
";

const SIZE: &[u8] =
    b"<svg xmlns='http://www.w3.org/2000/svg' width='840' height='264' viewBox='0 0 840 264'>
";

const PAGE: &[u8] = b"<text class='host' x='260' y='30'>anna</text>
<line class='life' x1='260' y1='40' x2='260' y2='264'/>
<text class='host' x='580' y='30'>helix</text>
<line class='life' x1='580' y1='40' x2='580' y2='264'/>
<line class='moment' x1='0' y1='76' x2='840' y2='76'/>
<text class='when' x='4' y='87'>0 ms</text>
<line class='moment' x1='0' y1='140' x2='840' y2='140'/>
<text class='when' x='4' y='151'>5 ms</text>
<text class='left op' dx='-6' dy='3' x='260' y='92'>write 3 '&lt;&amp;&gt;' = count 3</text>
<line class='frame' x1='260' y1='108' x2='580' y2='124'/>
<path class='frame' d='M 580 124m-8-4l8 4l-8 4'/>
<text class='right' dx='10' dy='-3' x='260' y='108'>1: udp len 3</text>
<line class='again' x1='260' y1='108' x2='580' y2='156'/>
<path class='again' d='M 580 156m-8-4l8 4l-8 4'/>
<text class='left op' dx='-6' dy='3' x='260' y='172'>write 1 'h' = count 1</text>
<line class='lost' x1='260' y1='188' x2='420' y2='196'/>
<path class='lost' d='M 420 196m-5-5l10 10m0-10l-10 10'/>
<text class='right' dx='10' dy='-3' x='260' y='188'>2: udp len 1</text>
<text class='right op' dx='6' dy='3' x='580' y='204'>read 8192 = bytes 3 '&lt;&amp;&gt;'</text>
</svg>
";

fn chart_of_lines(alloc: Global, lines: &[u8]) -> Result<Octets, AllocError> {
    let Ok(world) = read_world(alloc, WORLD) else {
        return Err(AllocError);
    };
    let Ok((history, _)) = read_transcript(alloc, lines) else {
        return Err(AllocError);
    };
    chart_of(alloc, &world, &history)
}

// Whether a text is this page: its size, the style and what is drawn.
fn is_page(alloc: Global, text: &Octets, size: &[u8], drawn: &[u8]) -> Result<bool, AllocError> {
    let mut page = Octets::from_slice(alloc, size)?;
    page.append(STYLE)?;
    page.append(drawn)?;
    Ok(text.as_slice() == page.as_slice())
}

// Whether these lines are drawn so.
fn draws(alloc: Global, lines: &[u8]) -> Result<bool, AllocError> {
    let text = chart_of_lines(alloc, lines)?;
    is_page(alloc, &text, SIZE, PAGE)
}

#[test]
fn copies_and_losses_are_drawn(rt: HostRuntime) {
    let drawn = draws(rt.alloc(), HISTORY);
    assert_eq!(rt; drawn, Ok(true));
}

// A datagram between conversations, a stray, an answer that is sent on from one medium to another, and one that is lost.
const TALKS: &[u8] = b"0 0 0 dir.0.udp - reserve = slot 0 1
1 0 0 conv.0.udp.0 - write 1 6869 = count 2 + udp 135.104.9.6!5000 135.104.9.31!7 255 0 2
2 0 0 medium.0 1 put 1 = laid 1
3 0 2 medium.0 - take = copy 1
4 0 2 dir.1.udp 3 arrive = to 0 1
5 0 2 conv.1.udp.0 4 arrive 1 = took
6 2 0 conv.0.udp.1 - write 1 68 = count 1 + udp 135.104.9.6!5001 135.104.9.31!9 255 0 1
7 2 0 medium.0 6 put 1 = laid 2
8 3 2 medium.0 - take = copy 2
9 3 2 dir.1.udp 8 arrive = dropped
10 3 1 conv.1.udp.0 - write 1 6f6b = count 2 + udp 135.104.9.31!7 135.104.9.6!5001 255 0 2
11 3 1 medium.1 10 put 0 = laid 1
12 4 2 medium.1 - take = copy 1
13 4 2 medium.0 12 put 0 = laid 3
14 5 2 medium.0 - take = copy 3
15 5 2 dir.0.udp 14 arrive = to 1 1
16 5 2 conv.0.udp.1 15 arrive 1 = took
17 6 1 conv.1.udp.0 - write 1 21 = count 1 + udp 135.104.9.31!7 135.104.9.6!5001 255 0 1
18 6 1 medium.1 17 put 0 = laid 2
";

const TALKS_SIZE: &[u8] =
    b"<svg xmlns='http://www.w3.org/2000/svg' width='1160' height='440' viewBox='0 0 1160 440'>
";

const TALKS_PAGE: &[u8] = b"<text class='host' x='260' y='30'>anna udp/0</text>
<line class='life' x1='260' y1='40' x2='260' y2='440'/>
<text class='host' x='580' y='30'>helix udp/0</text>
<line class='life' x1='580' y1='40' x2='580' y2='440'/>
<text class='host' x='900' y='30'>anna udp/1</text>
<line class='life' x1='900' y1='40' x2='900' y2='440'/>
<line class='moment' x1='0' y1='76' x2='1160' y2='76'/>
<text class='when' x='4' y='87'>0 ms</text>
<line class='moment' x1='0' y1='156' x2='1160' y2='156'/>
<text class='when' x='4' y='167'>2 ms</text>
<line class='moment' x1='0' y1='204' x2='1160' y2='204'/>
<text class='when' x='4' y='215'>3 ms</text>
<line class='moment' x1='0' y1='268' x2='1160' y2='268'/>
<text class='when' x='4' y='279'>4 ms</text>
<line class='moment' x1='0' y1='316' x2='1160' y2='316'/>
<text class='when' x='4' y='327'>5 ms</text>
<line class='moment' x1='0' y1='348' x2='1160' y2='348'/>
<text class='when' x='4' y='359'>6 ms</text>
<text class='left op' dx='-6' dy='3' x='260' y='108'>write 2 'hi' = count 2</text>
<line class='frame' x1='260' y1='124' x2='580' y2='140'/>
<path class='frame' d='M 580 140m-8-4l8 4l-8 4'/>
<text class='right' dx='10' dy='-3' x='260' y='124'>1: udp len 2</text>
<text class='right op' dx='6' dy='3' x='900' y='172'>write 1 'h' = count 1</text>
<text class='right op' dx='6' dy='3' x='580' y='236'>write 2 'ok' = count 2</text>
<line class='frame' x1='580' y1='300' x2='900' y2='332'/>
<path class='frame' d='M 900 332m-8-4l8 4l-8 4'/>
<text class='right' dx='10' dy='-3' x='580' y='300'>3: udp len 2</text>
<text class='right op' dx='6' dy='3' x='580' y='364'>write 1 '!' = count 1</text>
<line class='lost' x1='580' y1='380' x2='420' y2='388'/>
<path class='lost' d='M 420 388m-5-5l10 10m0-10l-10 10'/>
<text class='left' dx='-10' dy='-3' x='580' y='380'>2: udp len 1</text>
</svg>
";

// Whether the chart of their conversations is this one.
fn draws_talks(alloc: Global, lines: &[u8]) -> Result<bool, AllocError> {
    let Ok(world) = read_world(alloc, WORLD) else {
        return Err(AllocError);
    };
    let Ok((history, _)) = read_transcript(alloc, lines) else {
        return Err(AllocError);
    };
    let text = chart_of_talks(alloc, &world, &history)?;
    is_page(alloc, &text, TALKS_SIZE, TALKS_PAGE)
}

#[test]
fn frames_between_conversations_are_drawn(rt: HostRuntime) {
    let drawn = draws_talks(rt.alloc(), TALKS);
    assert_eq!(rt; drawn, Ok(true));
}

// A frame that is laid, and of which no copy arrives.
fn laid(frame: u64) -> Entry {
    Entry {
        actor: ActorName::Medium(0),
        caller: 0,
        moment: 3,
        event: Event::Put { to: Some(1) },
        cites: None,
        reply: Reply::Laid { frame },
        emits: None,
        ended: false,
    }
}

fn many_laid(alloc: Global, count: u64) -> Result<History, AllocError> {
    let mut history = History::new(alloc);
    for frame in 0..count {
        history.push(laid(frame))?;
    }
    Ok(history)
}

// How often a piece stands in a text.
fn count_of(text: &[u8], piece: &[u8]) -> usize {
    let mut count: usize = 0;
    for place in 0..text.len() {
        if text[place..].starts_with(piece) {
            count = count.saturating_add(1);
        }
    }
    count
}

fn chart_of_many(alloc: Global, world: &World, count: u64) -> Result<Octets, AllocError> {
    let history = many_laid(alloc, count)?;
    chart_of(alloc, world, &history)
}

// How many crosses, and counts of what isn't drawn, a chart of so many lost frames has.
fn counts_of_many(alloc: Global, count: u64) -> Result<(usize, usize), AllocError> {
    let Ok(world) = read_world(alloc, WORLD) else {
        return Err(AllocError);
    };
    let text = chart_of_many(alloc, &world, count)?;
    Ok((
        count_of(text.as_slice(), b"<line class='lost'"),
        count_of(text.as_slice(), b">498 between</text>"),
    ))
}

#[test]
fn a_long_history_is_drawn_in_brief(rt: HostRuntime) {
    let all = counts_of_many(rt.alloc(), 400);
    assert_eq!(rt; all, Ok((400, 0)));
    let brief = counts_of_many(rt.alloc(), 500);
    assert_eq!(rt; brief, Ok((2, 1)));
}
