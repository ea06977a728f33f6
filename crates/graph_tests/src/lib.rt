// Tests of `graph`: every kind of bad valley file, good ones, and verdicts on marks.
#![tactic(auto)]

use graph::fault::Fault;
use graph::mark::MarkLine;
use graph::mark_file::judge;
use graph::valley_file::{Refusal, read};
use graph::verdict::Marks;
use std::alloc::{AllocError, Global};

// Why a file is refused, if it is.
pub fn refusal_of(heap: Global, text: &[u8]) -> Option<Refusal> {
    read(heap, text).err()
}

// The length of the line that the marks have wrong, if one is.
pub fn wrong_length(heap: Global, valley: &[u8], marks: &[u8]) -> Result<Option<u32>, Fault> {
    let list = read(heap, valley).map_err(|refusal| refusal.fault)?;
    let wrong = judge(heap, &list, marks)?;
    Ok(wrong.map(|edge| edge.weight))
}

// The same, by the edges with their marks.
pub fn wrong_marked(heap: Global, valley: &[u8], text: &[u8]) -> Result<Option<u32>, Fault> {
    let list = read(heap, valley).map_err(|refusal| refusal.fault)?;
    let mut marks = Marks::new(heap, &list)?;
    marks.take(text);
    Ok(marks.verdict().map(|edge| edge.weight))
}

// The length of the line that is wrong, if one is, once these marks are set beside the lines; the first `places` lines
// alone have a place for their marks.
pub fn wrong_beside(
    heap: Global,
    valley: &[u8],
    lines: &[MarkLine],
    places: usize,
) -> Result<Option<u32>, Fault> {
    let list = read(heap, valley).map_err(|refusal| refusal.fault)?;
    let mut marks = list.unmarked(heap)?;
    marks.truncate(places);
    for line in lines {
        list.set_mark(&mut marks, line.at, line.to, line.mark);
    }
    Ok(list.verdict(&marks).map(|edge| edge.weight))
}

// `before`, then `count` times the same line, then `after`. (A `repeat` would make a copy more.)
pub fn long_text(
    heap: Global,
    before: &[u8],
    line: &[u8],
    count: usize,
    after: &[u8],
) -> Result<Vec<u8>, AllocError> {
    let mut text = Vec::new(heap);
    text.extend_from_slice(before)?;
    for _ in 0..count {
        text.extend_from_slice(line)?;
    }
    text.extend_from_slice(after)?;
    Ok(text)
}

#[cfg(test)]
mod tests {
    use super::*;
    use graph::mark::Mark;
    use std::process::Abort;
    use std::test::*;

    const HOUSES: &[u8] = b"houses 3\n";

    fn refuses(
        rt: &(impl Abort + AllocGlobal),
        text: &[u8],
        line: usize,
        fault: Fault,
    ) -> Result<(), Fail> {
        assert_eq!(rt; refusal_of(rt.alloc(), text), Some(Refusal { line, fault }));
        Ok(())
    }

    fn accepts(rt: &(impl Abort + AllocGlobal), text: &[u8]) -> Result<(), Fail> {
        assert_eq!(rt; refusal_of(rt.alloc(), text), None);
        Ok(())
    }

    #[test]
    fn good_files(rt: HostRuntime) -> Result<(), Fail> {
        accepts(&rt, b"houses 1")?;
        accepts(&rt, b"# a valley\n\n  houses\t2 \r\nline 0 1 1000000\r\n")?;
        accepts(&rt, b"houses 3\nline 0 1 1\n\n# and\nline 2 1 2")?;
        accepts(&rt, b"houses 003\nline 0 1 5\nline 1 2 6\nline 2 0 7\n")
    }

    #[test]
    fn bad_beginnings(rt: HostRuntime) -> Result<(), Fail> {
        refuses(&rt, b"", 1, Fault::NoCount)?;
        refuses(&rt, b"# nothing\n\n", 3, Fault::NoCount)?;
        refuses(&rt, b"line 0 1 5\nhouses 2\n", 1, Fault::NoCount)?;
        refuses(
            &rt,
            b"houses 2\nline 0 1 5\nhouses 2\n",
            3,
            Fault::CountTwice,
        )?;
        refuses(&rt, b"houses 0\n", 1, Fault::CountOutOfRange)?;
        refuses(&rt, b"\nhouses 257\n", 2, Fault::CountOutOfRange)?;
        refuses(
            &rt,
            b"houses 99999999999999999999999\n",
            1,
            Fault::CountOutOfRange,
        )?;
        refuses(&rt, b"houses -3\n", 1, Fault::NotUnderstood)?;
        refuses(&rt, b"houses 3 4\n", 1, Fault::NotUnderstood)?;
        refuses(&rt, b"houses\n", 1, Fault::NotUnderstood)?;
        refuses(&rt, b"Houses 3\n", 1, Fault::NotUnderstood)?;
        refuses(&rt, b"\xff\xfe\n", 1, Fault::NotUnderstood)
    }

    // A line behind `houses 3`.
    fn refuses_line(
        rt: &(impl Abort + AllocGlobal),
        line: &[u8],
        fault: Fault,
    ) -> Result<(), Fail> {
        let text = long_text(
            rt.alloc(),
            b"houses 3\nline 0 1 5\n",
            line,
            1,
            b"\nline 1 2 9\n",
        )?;
        refuses(rt, &text, 3, fault)
    }

    #[test]
    fn bad_lines(rt: HostRuntime) -> Result<(), Fail> {
        refuses_line(&rt, b"line 0 1 6", Fault::EdgeTwice)?;
        refuses_line(&rt, b"line 1 0 6", Fault::EdgeTwice)?;
        refuses_line(&rt, b"line 2 2 6", Fault::OwnNode)?;
        refuses_line(&rt, b"line 0 2 5", Fault::WeightTwice)?;
        refuses_line(&rt, b"line 0 2 0", Fault::WeightOutOfRange)?;
        refuses_line(&rt, b"line 0 2 1000001", Fault::WeightOutOfRange)?;
        refuses_line(
            &rt,
            b"line 0 2 18446744073709551621",
            Fault::WeightOutOfRange,
        )?;
        refuses_line(&rt, b"line 0 3 6", Fault::NodeOutOfRange)?;
        refuses_line(
            &rt,
            b"line 340282366920938463463374607431768211456 2 6",
            Fault::NodeOutOfRange,
        )?;
        refuses_line(&rt, b"line 0 2 6x", Fault::NotUnderstood)?;
        refuses_line(&rt, b"line 0 two 6", Fault::NotUnderstood)?;
        refuses_line(&rt, b"line 0 2 +6", Fault::NotUnderstood)?;
        refuses_line(&rt, b"line 0 2", Fault::NotUnderstood)?;
        refuses_line(&rt, b"line 0 2 6 7", Fault::NotUnderstood)?;
        refuses_line(&rt, b"lines 0 2 6", Fault::NotUnderstood)
    }

    #[test]
    fn bad_wholes(rt: HostRuntime) -> Result<(), Fail> {
        refuses(&rt, b"houses 2\n", 1, Fault::Apart)?;
        refuses(&rt, b"houses 4\nline 0 1 5\nline 2 3 6\n", 3, Fault::Apart)?;
        refuses(
            &rt,
            b"houses 256\nline 255 256 5\n",
            2,
            Fault::NodeOutOfRange,
        )?;
        let sixteen: &[u8] =
            b"houses 18\nline 0 1 1\nline 0 2 2\nline 0 3 3\nline 0 4 4\nline 0 5 5\nline 0 6 6\nline 0 7 7\nline 0 8 8\nline 9 0 9\nline 10 0 10\nline 11 0 11\nline 12 0 12\nline 13 0 13\nline 14 0 14\nline 15 0 15\nline 16 0 16\nline 1 17 17\n";
        accepts(&rt, sixteen)?;
        let more = long_text(rt.alloc(), sixteen, b"line 17 0 18\n", 1, b"")?;
        refuses(&rt, &more, 19, Fault::TooManyEdges)
    }

    #[test]
    fn long_files(rt: HostRuntime) -> Result<(), Fail> {
        let good = long_text(
            rt.alloc(),
            HOUSES,
            b"# nothing\n",
            300_000,
            b"line 0 1 5\nline 1 2 6\n",
        )?;
        accepts(&rt, &good)?;
        let late = long_text(rt.alloc(), HOUSES, b"\n", 300_000, b"nothing\n")?;
        refuses(&rt, &late, 300_002, Fault::NotUnderstood)?;
        let wide = long_text(rt.alloc(), HOUSES, b"x", 1_000_000, b"\n")?;
        refuses(&rt, &wide, 2, Fault::NotUnderstood)?;
        let again = long_text(rt.alloc(), HOUSES, b"line 0 1 5\n", 100_000, b"")?;
        refuses(&rt, &again, 3, Fault::EdgeTwice)
    }

    // Every fault with its number.
    const CODES: [(Fault, u8); 12] = [
        (Fault::NotUnderstood, 1),
        (Fault::NoCount, 2),
        (Fault::CountTwice, 3),
        (Fault::CountOutOfRange, 4),
        (Fault::NodeOutOfRange, 5),
        (Fault::OwnNode, 6),
        (Fault::WeightOutOfRange, 7),
        (Fault::EdgeTwice, 8),
        (Fault::WeightTwice, 9),
        (Fault::TooManyEdges, 10),
        (Fault::Apart, 11),
        (Fault::NoMemory, 12),
    ];

    #[test]
    fn codes(rt: HostRuntime) -> Result<(), Fail> {
        for (fault, code) in CODES.iter() {
            assert_eq!(rt; fault.code(), *code);
        }
        Ok(())
    }

    const TRIANGLE: &[u8] = b"houses 3\nline 0 1 1\nline 1 2 2\nline 0 2 3\n";

    fn wrong(
        rt: &(impl Abort + AllocGlobal),
        marks: &[u8],
        length: Option<u32>,
    ) -> Result<(), Fail> {
        assert_eq!(rt; wrong_length(rt.alloc(), TRIANGLE, marks), Ok(length));
        assert_eq!(rt; wrong_marked(rt.alloc(), TRIANGLE, marks), Ok(length));
        Ok(())
    }

    #[test]
    fn verdicts(rt: HostRuntime) -> Result<(), Fail> {
        let right: &[u8] =
            b"mark 0 1 laid\nmark 1 0 laid\nmark 1 2 laid\nmark 2 1 laid\nmark 0 2 ruled\nmark 2 0 ruled\ndone 9\n";
        wrong(&rt, right, None)?;
        wrong(&rt, b"", Some(1))?;
        wrong(
            &rt,
            b"mark 0 1 laid\nmark 1 0 laid\nmark 1 2 laid\nmark 0 2 ruled\nmark 2 0 ruled\n",
            Some(2),
        )?;
        wrong(
            &rt,
            b"mark 0 1 laid\nmark 1 0 laid\nmark 1 2 laid\nmark 2 1 laid\nmark 0 2 ruled\nmark 2 0 laid\n",
            Some(3),
        )?;
        let later = long_text(rt.alloc(), right, b"mark 2 1 ruled\n", 1, b"")?;
        wrong(&rt, &later, Some(2))?;
        let others = long_text(
            rt.alloc(),
            right,
            b"mark 0 0 ruled\nmark 7 1 laid\nmark 0 1 dug\nmark 0 1\n",
            1,
            b"mark 1 0 laid",
        )?;
        wrong(&rt, &others, None)
    }

    fn beside(
        rt: &(impl Abort + AllocGlobal),
        lines: &[MarkLine],
        places: usize,
        length: Option<u32>,
    ) -> Result<(), Fail> {
        assert_eq!(rt;
            wrong_beside(rt.alloc(), TRIANGLE, lines, places),
            Ok(length)
        );
        Ok(())
    }

    fn says(at: usize, to: usize, mark: Mark) -> MarkLine {
        MarkLine { at, to, mark }
    }

    #[test]
    fn verdicts_beside(rt: HostRuntime) -> Result<(), Fail> {
        let right = [
            says(0, 1, Mark::Branch),
            says(1, 0, Mark::Branch),
            says(1, 2, Mark::Branch),
            says(2, 1, Mark::Branch),
            says(0, 2, Mark::Rejected),
            says(2, 0, Mark::Rejected),
        ];
        beside(&rt, &right, 3, None)?;
        beside(&rt, &right[..3], 3, Some(2))?;
        beside(&rt, &right[..5], 3, Some(3))?;
        // Where marks are wanting, nothing is set and nothing decided.
        beside(&rt, &right, 2, Some(3))?;
        beside(&rt, &right, 0, Some(1))?;
        // Where there is no such line, nothing changes.
        beside(
            &rt,
            &[says(0, 0, Mark::Branch), says(7, 1, Mark::Branch)],
            3,
            Some(1),
        )
    }
}
