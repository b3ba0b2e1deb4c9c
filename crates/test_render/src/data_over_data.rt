// Data over data, and the first that can't be read.
use std::alloc::Global;
use tera::Context;
use tera_data::Floats;
use tera_job::{DataForm, Datum, context_of};

// Records of CSV as an array at a name. Without one they are refused.
#[test]
fn records_stand_at_a_name(rt: HostRuntime) {
    let text = "name,size\noar,\"2\"\n";
    let whole = [Datum::Whole {
        name: "stock",
        form: DataForm::Csv,
        text,
    }];
    match context_of(rt.alloc(), whole.as_slice(), Floats::Refuse) {
        Ok(context) => assert!(rt;
            prints(
                rt.alloc(),
                &context,
                "{\"stock\": [{\"name\": \"oar\", \"size\": \"2\"}]}",
            )
        ),
        Err(_) => assert!(rt; false, "refused"),
    }
    let members = [Datum::Members {
        form: DataForm::Csv,
        text,
    }];
    assert!(rt; context_of(rt.alloc(), members.as_slice(), Floats::Refuse).is_err());
}

// Tables of TOML as members, and at a name. A float is refused, or is its text.
#[test]
fn tables_are_members_too(rt: HostRuntime) {
    let text = "b = \"<2>\"\n[a]\nwhen = 1979-05-27\nsizes = [1, 2]\n";
    let given = [
        members("{\"b\": 1, \"c\": 1}"),
        Datum::Members {
            form: DataForm::Toml,
            text,
        },
        Datum::Whole {
            name: "d",
            form: DataForm::Toml,
            text: "x = 1.5",
        },
    ];
    match context_of(rt.alloc(), given.as_slice(), Floats::Text) {
        Ok(context) => assert!(rt;
            prints(
                rt.alloc(),
                &context,
                "{\"a\": {\"sizes\": [1, 2], \"when\": \"1979-05-27\"}, \"b\": \"<2>\", \"c\": 1, \"d\": {\"x\": \"1.5\"}}",
            )
        ),
        Err(_) => assert!(rt; false, "refused"),
    }
    match context_of(rt.alloc(), given.as_slice(), Floats::Refuse) {
        Ok(_) => assert!(rt; false, "not refused"),
        Err(unreadable) => assert!(rt; unreadable.position == 2),
    }
}

fn members(text: &str) -> Datum<'_> {
    Datum::Members {
        form: DataForm::Json,
        text,
    }
}

fn prints(alloc: Global, context: &Context, want: &str) -> bool {
    match context.to_value() {
        Ok(value) => match value.printed(alloc) {
            Ok(text) => text.as_str() == want,
            Err(_) => false,
        },
        Err(_) => false,
    }
}

#[test]
fn later_data_wins_name_by_name(rt: HostRuntime) {
    let given = [
        Datum::Words {
            name: "b",
            text: "<1>",
        },
        members("{\"a\": 1, \"b\": 2}"),
        Datum::Whole {
            name: "c",
            form: DataForm::Json,
            text: "[true, null]",
        },
        members("{\"a\": {\"x\": 3}}"),
        Datum::Words {
            name: "d",
            text: "",
        },
    ];
    match context_of(rt.alloc(), given.as_slice(), Floats::Refuse) {
        Ok(context) => assert!(rt;
            prints(
                rt.alloc(),
                &context,
                "{\"a\": {\"x\": 3}, \"b\": 2, \"c\": [true, none], \"d\": \"\"}",
            )
        ),
        Err(_) => assert!(rt; false, "refused"),
    }
}

#[test]
fn the_first_that_cannot_be_read_is_told(rt: HostRuntime) {
    let given = [members("{}"), members("{\"a\": 1.5}"), members("no JSON")];
    match context_of(rt.alloc(), given.as_slice(), Floats::Refuse) {
        Ok(_) => assert!(rt; false, "not refused"),
        Err(unreadable) => assert!(rt;
            unreadable.position == 1
                && unreadable.error.words() == Some("`a` is 1.5, which is no integer of 128 bits")
        ),
    }
    match context_of(rt.alloc(), given.as_slice(), Floats::Text) {
        Ok(_) => assert!(rt; false, "not refused"),
        Err(unreadable) => assert!(rt; unreadable.position == 2),
    }
}

#[test]
fn suffixes_tell_of_forms(rt: HostRuntime) {
    assert!(rt; DataForm::of_file("a/b.json") == Some(DataForm::Json));
    assert!(rt; DataForm::of_file("a/b.csv") == Some(DataForm::Csv));
    assert!(rt; DataForm::of_file("a/b.toml") == Some(DataForm::Toml));
    assert!(rt; DataForm::of_file("a/b.yaml").is_none());
    assert!(rt; DataForm::of_file("a/b.jso").is_none());
    assert!(rt; DataForm::of_file("json").is_none());
}
