// What a text of CSV spells.
use crate::checks::answers;
use std::alloc::Global;
use tera_data::csv_value;
use tera_values::TeraResult;

#[test]
fn texts_spell_arrays(rt: HostRuntime) {
    for (text, want) in [
        ("", "array []"),
        ("\n\r\n", "array []"),
        ("a,b", "array []"),
        ("a,b\n", "array []"),
        ("a,b\n1,2\n", "array [{\"a\": \"1\", \"b\": \"2\"}]"),
        (
            "b,a\r\n1,\r\n,2",
            "array [{\"b\": \"1\", \"a\": \"\"}, {\"b\": \"\", \"a\": \"2\"}]",
        ),
        (
            "\u{feff}a\n1\n\n2\n",
            "array [{\"a\": \"1\"}, {\"a\": \"2\"}]",
        ),
        (
            "a\n\"x,\"\"y\"\"\nz\"\n",
            "array [{\"a\": \"x,\\\"y\\\"\\nz\"}]",
        ),
        ("é, b \n ß,x \n", "array [{\"é\": \" ß\", \" b \": \"x \"}]"),
        ("a,a\n1,2\n", "array [{\"a\": \"2\"}]"),
        ("a,\n1,2\n", "array [{\"a\": \"1\", \"\": \"2\"}]"),
        ("a\n\"open", "array [{\"a\": \"open\"}]"),
        ("a,b\n1\n", "message"),
        ("a,b\n1,2\n1,2,3\n", "message"),
        ("a,b\n1,2,\n", "message"),
    ] {
        assert!(rt;
            answers(rt.alloc(), csv_value(rt.alloc(), text), want),
            "{text}"
        );
    }
}

/// A text of so many records under a header.
fn long_text(alloc: Global, records: usize) -> TeraResult<String> {
    let mut text = String::from_str(alloc, "n,m\n")?;
    for number in 0..records {
        text.push_str(format!(in alloc; "{number},x\n")?.as_str())?;
    }
    Ok(text)
}

fn count(alloc: Global, records: usize) -> TeraResult<Option<usize>> {
    let text = long_text(alloc, records)?;
    Ok(csv_value(alloc, text.as_str())?.len())
}

#[test]
fn records_may_be_many(rt: HostRuntime) {
    for records in [0, 1, 10_000] {
        assert!(rt;
            matches!(count(rt.alloc(), records), Ok(Some(found)) if found == records),
            "{records}"
        );
    }
}
