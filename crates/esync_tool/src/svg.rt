//! A script as a picture that a browser shows, in SVG.
//!
//! The picture is a function of the steps of a script, as they are told while it is played. There is a lane for the primitive, for
//! who calls, and for each task, by its waker. A row has the number of its line, the command above the arrow from who gives it, and
//! the answer below. Each wake is an arrow. A bar in a task's lane stands from the poll that was answered Pending to the wake, or to
//! the next poll or the end of that request, be it by a `leave`. A page has 50 lines, and bars go on from one to the next.
use crate::steps::{Step, Steps};
use crate::stopped::Stopped;
use esync_words::play::Giver;
use std::alloc::{AllocError, Global};
use std::io::{self, Write};

// How many lines a page has.
const PAGE: usize = 50;

// How much of a text is shown, in characters.
const SHOWN: usize = 44;

// The heights of a page's head, of a row and of a wake in it, and of what stands below a page.
const HEAD: u64 = 64;

const ROW: u64 = 38;

const WAKE: u64 = 16;

const FOOT: u64 = 24;

// How far below its arrow a row's wakes begin.
const ANSWER: u64 = 10;

// Where the primitive's lane is, where the first of the others, and how far they are from one another.
const OBJECT: u64 = 56;

const LANES: u64 = 430;

const BETWEEN: u64 = 100;

const STYLE: &str = "\
text { font: 13px ui-monospace, monospace; fill: #1a1a1a }
.number, .from { fill: #767676 }
.answer { fill: #1d4f91 }
.lane { stroke: #b5b5b5; stroke-dasharray: 3 4 }
.object { stroke: #1a1a1a; stroke-width: 3 }
.name { fill: #f2f2f2; stroke: #8c8c8c }
.bar { fill: #f0b95a; stroke: #8a5a00 }
.arrow { stroke: #4a4a4a }
.wake { stroke: #1b7a3d; stroke-width: 2 }
";

#[derive(Clone, Copy, PartialEq)]
enum Lane {
    Caller,
    Task(u64),
}

impl Lane {
    fn of(giver: Giver) -> Lane {
        match giver {
            Giver::Task { waker, .. } => Lane::Task(waker),
            Giver::Starter(_) | Giver::Dropper(_) | Giver::Caller => Lane::Caller,
        }
    }
}

/// A request that waits, and from where its bar is drawn.
#[derive(Clone, Copy)]
struct Waiting {
    request: usize,
    waker: u64,
    from: u64,
}

/// What ends a wait: the request was polled or is over, or the task was woken.
#[derive(Clone, Copy)]
enum Over {
    Request(usize),
    Waker(u64),
}

impl Over {
    fn ends(self, waiting: &Waiting) -> bool {
        match self {
            Over::Request(request) => waiting.request == request,
            Over::Waker(waker) => waiting.waker == waker,
        }
    }
}

/// A bar in the lane of a task.
#[derive(Clone, Copy)]
struct Bar {
    waker: u64,
    from: u64,
    to: u64,
}

/// Draws the steps of a script, or of its first lines.
pub fn draw<W: Write>(alloc: Global, script: &Steps, output: &mut W) -> Result<(), Stopped> {
    let name = script.name();
    let mut pages = Pages {
        alloc,
        body: Vec::new(alloc),
        waits: Vec::new(alloc),
        top: 0,
        width: LANES,
    };
    if script.steps().is_empty() {
        pages.page(name, &[])?;
    }
    for page in script.steps().chunks(PAGE) {
        pages.page(name, page)?;
    }
    let (width, height) = (pages.width, pages.top);
    writeln!(
        output,
        "<svg xmlns=\"http://www.w3.org/2000/svg\" width=\"{width}\" height=\"{height}\" viewBox=\"0 0 {width} {height}\">"
    )?;
    write!(output, "<title>")?;
    escaped(name, usize::MAX, output)?;
    writeln!(output, "</title>")?;
    writeln!(output, "<style>\n{STYLE}</style>")?;
    writeln!(
        output,
        "<marker id=\"head\" viewBox=\"0 0 8 8\" refX=\"8\" refY=\"4\" markerWidth=\"8\" markerHeight=\"8\" orient=\"auto-start-reverse\"><path d=\"M0 0L8 4L0 8z\" fill=\"context-stroke\"/></marker>"
    )?;
    writeln!(
        output,
        "<rect width=\"100%\" height=\"100%\" fill=\"#ffffff\"/>"
    )?;
    output.write_all(&pages.body)?;
    writeln!(output, "</svg>")?;
    Ok(())
}

/// The pages that were drawn, and what goes on to the next.
#[derive(Drop)]
struct Pages {
    alloc: Global,
    body: Vec<u8>,
    waits: Vec<Waiting>,
    // Where the next page begins.
    top: u64,
    width: u64,
}

impl Pages {
    // Draws a page of these steps.
    fn page(&mut self, name: &str, steps: &[Step]) -> Result<(), Stopped> {
        let lanes = self.lanes(steps)?;
        let first = self.top.saturating_add(HEAD);
        let last = steps
            .iter()
            .fold(first, |y, step| y.saturating_add(height_of(step)));
        let bars = self.bars(steps, first, last)?;
        let count = lanes.len() as u64;
        let width = LANES.saturating_add(count.saturating_mul(BETWEEN));
        self.width = self.width.max(width);
        if let Some(step) = steps.first() {
            self.from(step.number)?;
        }
        self.head(name, &lanes, last)?;
        for bar in bars.iter() {
            let x = x_of(&lanes, Lane::Task(bar.waker)).saturating_sub(5);
            let height = bar.to.saturating_sub(bar.from);
            writeln!(
                self.body,
                "<rect class=\"bar\" x=\"{x}\" y=\"{}\" width=\"10\" height=\"{height}\"/>",
                bar.from
            )?;
        }
        let mut y = first;
        for step in steps {
            self.row(step, &lanes, y)?;
            y = y.saturating_add(height_of(step));
        }
        self.top = last.saturating_add(FOOT);
        Ok(())
    }

    // The lanes of a page: of who already waits, and of who is there in its steps.
    fn lanes(&self, steps: &[Step]) -> Result<Vec<Lane>, AllocError> {
        let mut lanes = Vec::new(self.alloc);
        for waiting in self.waits.iter() {
            add(&mut lanes, Lane::Task(waiting.waker))?;
        }
        for step in steps {
            add(&mut lanes, Lane::of(step.giver))?;
            for waker in step.wakers.iter() {
                add(&mut lanes, Lane::Task(*waker))?;
            }
        }
        Ok(lanes)
    }

    // The bars of a page whose rows stand between these heights. Who still waits then is kept for the next.
    fn bars(&mut self, steps: &[Step], first: u64, last: u64) -> Result<Vec<Bar>, AllocError> {
        let mut bars = Vec::new(self.alloc);
        let mut y = first;
        for waiting in self.waits.iter_mut() {
            waiting.from = first.saturating_sub(ROW / 2);
        }
        for step in steps {
            self.wait(step, y, &mut bars)?;
            y = y.saturating_add(height_of(step));
        }
        for waiting in self.waits.iter() {
            bars.push(Bar {
                waker: waiting.waker,
                from: waiting.from,
                to: last,
            })?;
        }
        Ok(bars)
    }

    // Notes who waits after a step, and whose wait it ends.
    fn wait(&mut self, step: &Step, y: u64, bars: &mut Vec<Bar>) -> Result<(), AllocError> {
        match step.giver {
            Giver::Task { request, waker } => {
                self.end(y, bars, Over::Request(request))?;
                if step.is_pending {
                    self.waits.push(Waiting {
                        request,
                        waker,
                        from: y,
                    })?;
                }
            }
            Giver::Dropper(request) => self.end(y, bars, Over::Request(request))?,
            Giver::Starter(_) | Giver::Caller => {}
        }
        for request in step.ended.iter() {
            self.end(y, bars, Over::Request(*request))?;
        }
        let mut at = y.saturating_add(ANSWER);
        for waker in step.wakers.iter() {
            at = at.saturating_add(WAKE);
            self.end(at, bars, Over::Waker(*waker))?;
        }
        Ok(())
    }

    // Ends the waits that this ends.
    fn end(&mut self, y: u64, bars: &mut Vec<Bar>, over: Over) -> Result<(), AllocError> {
        let mut left = Vec::new(self.alloc);
        for waiting in self.waits.iter() {
            if over.ends(waiting) {
                bars.push(Bar {
                    waker: waiting.waker,
                    from: waiting.from,
                    to: y,
                })?;
            } else {
                left.push(*waiting)?;
            }
        }
        self.waits = left;
        Ok(())
    }

    // Says with which line a page begins, unless it is the first.
    fn from(&mut self, line: u64) -> io::Result<()> {
        if self.top == 0 {
            return Ok(());
        }
        let y = self.top.saturating_sub(4);
        writeln!(
            self.body,
            "<text class=\"from\" x=\"8\" y=\"{y}\">from line {line}</text>"
        )
    }

    // Draws the lanes, down to this height, and their names.
    fn head(&mut self, name: &str, lanes: &[Lane], last: u64) -> Result<(), Stopped> {
        let top = self.top;
        let (below, middle) = (top.saturating_add(36), top.saturating_add(25));
        writeln!(
            self.body,
            "<path class=\"object\" d=\"M{OBJECT} {below}V{last}\"/>"
        )?;
        let y = top.saturating_add(8);
        let wide = (name.len().min(SHOWN) as u64)
            .saturating_mul(8)
            .saturating_add(16);
        writeln!(
            self.body,
            "<rect class=\"name\" x=\"8\" y=\"{y}\" width=\"{}\" height=\"28\" rx=\"4\"/>",
            wide.max(96)
        )?;
        write!(self.body, "<text x=\"16\" y=\"{middle}\">")?;
        escaped(name, SHOWN, &mut self.body)?;
        writeln!(self.body, "</text>")?;
        for lane in lanes {
            let x = x_of(lanes, *lane);
            let left = x.saturating_sub(44);
            writeln!(
                self.body,
                "<path class=\"lane\" d=\"M{x} {below}V{last}\"/><rect class=\"name\" x=\"{left}\" y=\"{y}\" width=\"88\" height=\"28\" rx=\"4\"/>"
            )?;
            write!(
                self.body,
                "<text x=\"{x}\" y=\"{middle}\" text-anchor=\"middle\">"
            )?;
            match lane {
                Lane::Caller => write!(self.body, "calls")?,
                Lane::Task(waker) => write!(self.body, "task {waker}")?,
            }
            writeln!(self.body, "</text>")?;
        }
        Ok(())
    }

    // Draws a step at this height.
    fn row(&mut self, step: &Step, lanes: &[Lane], y: u64) -> Result<(), Stopped> {
        let (above, below) = (y.saturating_sub(5), y.saturating_add(14));
        let x = x_of(lanes, Lane::of(step.giver));
        let text = OBJECT.saturating_add(12);
        writeln!(
            self.body,
            "<text class=\"number\" x=\"44\" y=\"{above}\" text-anchor=\"end\">{}</text>",
            step.number
        )?;
        write!(self.body, "<text x=\"{text}\" y=\"{above}\">")?;
        told(step.line.as_str(), &mut self.body)?;
        write!(
            self.body,
            "</text><text class=\"answer\" x=\"{text}\" y=\"{below}\">"
        )?;
        told(step.answer.as_str(), &mut self.body)?;
        writeln!(self.body, "</text>")?;
        writeln!(
            self.body,
            "<path class=\"arrow\" d=\"M{x} {y}H{}\" marker-end=\"url(#head)\"/>",
            OBJECT.saturating_add(3)
        )?;
        let mut at = y.saturating_add(ANSWER);
        for waker in step.wakers.iter() {
            at = at.saturating_add(WAKE);
            let to = x_of(lanes, Lane::Task(*waker)).saturating_sub(6);
            writeln!(
                self.body,
                "<path class=\"wake\" d=\"M{} {at}H{to}\" marker-end=\"url(#head)\"/>",
                LANES.saturating_sub(120)
            )?;
            writeln!(
                self.body,
                "<text x=\"{}\" y=\"{}\" text-anchor=\"end\">wakes {waker}</text>",
                LANES.saturating_sub(126),
                at.saturating_add(4)
            )?;
        }
        Ok(())
    }
}

// How high a row is.
fn height_of(step: &Step) -> u64 {
    let count = step.wakers.len() as u64;
    ROW.saturating_add(count.saturating_mul(WAKE))
}

fn add(lanes: &mut Vec<Lane>, lane: Lane) -> Result<(), AllocError> {
    if !lanes.contains(&lane) {
        lanes.push(lane)?;
    }
    Ok(())
}

fn x_of(lanes: &[Lane], lane: Lane) -> u64 {
    let place = lanes.iter().position(|there| *there == lane).unwrap_or(0) as u64;
    LANES.saturating_add(place.saturating_mul(BETWEEN))
}

// Writes a text, cut where it is long. All of it is shown where the pointer rests.
fn told<W: Write>(text: &str, output: &mut W) -> io::Result<()> {
    if text.len() > SHOWN {
        write!(output, "<title>")?;
        escaped(text, usize::MAX, output)?;
        write!(output, "</title>")?;
    }
    escaped(text, SHOWN, output)
}

// Writes the first characters of a text.
fn escaped<W: Write>(text: &str, most: usize, output: &mut W) -> io::Result<()> {
    for (place, character) in text.chars().enumerate() {
        if place >= most {
            return write!(output, "…");
        }
        match character {
            '<' => write!(output, "&lt;")?,
            '>' => write!(output, "&gt;")?,
            '&' => write!(output, "&amp;")?,
            _ => write!(output, "{character}")?,
        }
    }
    Ok(())
}
