// A text worked line by line.
use crate::totals::Totals;
use lines::reader::LineReader;
use machine::bounds::Bounds;
use machine::scale::ScaleEnd;
use translator::translator::Translator;
use units::axis::Point;
use units::fault::Fault;
use units::quantity::Tolerance;

const INCREMENT: u32 = 100;

const LIMIT: i64 = 50_000_000;

fn scale_end() -> Result<ScaleEnd, Fault> {
    let corner = |at: i64| Point {
        x: at,
        y: at,
        z: at,
    };
    ScaleEnd::new(INCREMENT, Bounds::new(corner(-LIMIT), corner(LIMIT))?)
}

/// Works the lines of a text as blocks of a new translator, and adds what they tell to the totals; 17 where the tolerance is out of range.
pub fn bench_work(text: &[u8], tolerance: u64, totals: &mut Totals) -> Result<(), Fault> {
    let tolerance = Tolerance::new(tolerance).ok_or(Fault::Argument)?;
    let mut translator = Translator::new(scale_end()?, tolerance);
    for line in LineReader::new(text) {
        totals.add(translator.block(line.bytes));
    }
    Ok(())
}
