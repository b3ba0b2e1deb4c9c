// Whole jobs, each with what it makes or why it is refused, in words.
use std::alloc::{AllocError, Global};
use tera_data::Floats;
use tera_job::{
    DataForm, Datum, Job, JobError, Made, Settings, Tags, Task, Unwatched, furnish, make,
    make_with, pages, previews, syntax_errors,
};

const TEMPLATES: [(&str, &str); 6] = [
    (
        "_base.html",
        "<{% block title %}{{ title }}{% endblock %}>{% block body %}{% endblock %}",
    ),
    (
        "_parts/ui.html",
        "{% component Button(label) %}<b>{{ label }}</b>{% endcomponent %}",
    ),
    (
        "a.html",
        "{% extends \"_base.html\" %}{% block body %}{{ <Button label={name}/> }}{% endblock %}",
    ),
    ("b/c.txt.tera", "{{ name }}{% include \"themed.txt\" %}"),
    ("b/d.html.j2", "{{ name }}"),
    ("theme/themed.txt", "!"),
];

const SETTINGS: Settings<'static> = Settings {
    suffixes: &[".html", ".html.j2"],
    prefixes: &["theme/"],
    tags: None,
};

const DATA: [Datum<'static>; 2] = [
    Datum::Members {
        form: DataForm::Json,
        text: "{\"title\": \"T\", \"name\": \"?\"}",
    },
    Datum::Words {
        name: "name",
        text: "<n>",
    },
];

// What is made, in words.
fn words_of_made(alloc: Global, made: &Made) -> Result<String, AllocError> {
    let mut words = String::new(alloc);
    match made {
        Made::Text(text) => words.push_str(text.as_str())?,
        Made::Names(names) => {
            for name in names {
                words.push_str(name.as_str())?;
                words.push(' ')?;
            }
        }
        Made::Pages(pages) => {
            for page in pages {
                words.push_str(page.path.as_str())?;
                words.push(':')?;
                words.push_str(page.text.as_str())?;
                words.push(' ')?;
            }
        }
        Made::Previews(previews) => {
            for preview in previews {
                words.push_str(preview.name.as_str())?;
                words.push(':')?;
                match &preview.answer {
                    Ok(text) => words.push_str(text.as_str())?,
                    Err(_) => words.push('!')?,
                }
                words.push(' ')?;
            }
        }
        Made::Sound => words.push_str("sound")?,
    }
    Ok(words)
}

fn words_of_error(alloc: Global, error: &JobError) -> Result<String, AllocError> {
    match error {
        JobError::Unreadable(unreadable) => {
            let (position, error) = (unreadable.position, &unreadable.error);
            format!(in alloc; "{position}: {error}")
        }
        JobError::Fault(error) => format!(in alloc; "{error}"),
        JobError::Syntax(errors) => {
            let mut words = String::new(alloc);
            for error in errors {
                let one = format!(in alloc; "[{error}]")?;
                words.push_str(one.as_str())?;
            }
            Ok(words)
        }
    }
}

fn answer_by<'x>(
    alloc: Global,
    settings: Settings<'x>,
    templates: &'x [(&'x str, &'x str)],
    task: Task<'x>,
) -> Result<String, AllocError> {
    let job = Job {
        settings,
        templates,
        given: DATA.as_slice(),
        floats: Floats::Refuse,
        task,
    };
    match make(alloc, &job, &mut Unwatched) {
        Ok(made) => words_of_made(alloc, &made),
        Err(error) => words_of_error(alloc, &error),
    }
}

fn answers<'x>(
    alloc: Global,
    templates: &'x [(&'x str, &'x str)],
    task: Task<'x>,
    want: &str,
) -> bool {
    match answer_by(alloc, SETTINGS, templates, task) {
        Ok(words) => words.as_str() == want,
        Err(_) => false,
    }
}

#[test]
fn tasks_make_what_they_ask_for(rt: HostRuntime) {
    let page = "<T><b>&lt;n&gt;</b>";
    let all = "a.html:<T><b>&lt;n&gt;</b> b/c.txt:<n>! b/d.html:&lt;n&gt; theme/themed.txt:! ";
    for (task, want) in [
        (Task::One { name: "a.html" }, page),
        (
            Task::Block {
                name: "a.html",
                block: "title",
            },
            "T",
        ),
        (Task::All, all),
        (Task::Check, "sound"),
        (Task::Variables { name: "a.html" }, "name title "),
        (Task::Components { autoescape: true }, "Button:! "),
        (
            Task::One { name: "a.htm" },
            "there is no template `a.htm` (is `a.html` meant?)",
        ),
        (
            Task::Block {
                name: "c",
                block: "title",
            },
            "there is no template `c`",
        ),
        (
            Task::Variables { name: "b.html" },
            "there is no template `b.html` (is `a.html` meant?)",
        ),
    ] {
        assert!(rt;
            answers(rt.alloc(), TEMPLATES.as_slice(), task, want),
            "{want}"
        );
    }
}

#[test]
fn templates_are_refused(rt: HostRuntime) {
    let alloc = rt.alloc();
    let unread = [
        ("a.html", "{% if %}"),
        ("b.html", "ok"),
        ("c.html", "{{ x | }}"),
    ];
    assert!(rt;
        answers(
            alloc,
            unread.as_slice(),
            Task::Check,
            "[a.html:1:7: no expression begins here
1 | {% if %}
  |       ^^][c.html:1:8: a name is due here
1 | {{ x | }}
  |        ^^]",
        )
    );
    assert!(rt;
        answers(
            alloc,
            &[("a.html", "{{ x | uper }}")],
            Task::All,
            "a.html:1:8: there is no filter `uper`",
        )
    );
    assert!(rt;
        answers(
            alloc,
            &[("a.html", "1"), ("a.html.tera", "2")],
            Task::All,
            "`a.html` and `a.html.tera` both make the page `a.html`",
        )
    );
    for name in [
        "../a.html",
        "/a.html",
        "a//b.html",
        "a/./b.html",
        ".tera",
        "a/../../b",
    ] {
        assert!(rt; is_outside(alloc, name), "{name}");
    }
}

fn is_outside(alloc: Global, name: &str) -> bool {
    match answer_by(alloc, SETTINGS, &[(name, "1")], Task::All) {
        Ok(words) => words
            .as_str()
            .ends_with("would lie outside of the folder of pages"),
        Err(_) => false,
    }
}

const OTHER_TAGS: Settings<'static> = Settings {
    suffixes: &[],
    prefixes: &[],
    tags: Some(Tags {
        block_start: "<%",
        block_end: "%>",
        variable_start: "[[",
        variable_end: "]]",
        comment_start: "<#",
        comment_end: "#>",
    }),
};

const TAGGED: [(&str, &str); 1] = [(
    "a.html",
    "<% if name %>[[ name ]]<# no #>{{ name }}<% endif %>",
)];

#[test]
fn other_tags_are_read(rt: HostRuntime) {
    let task = Task::One { name: "a.html" };
    match answer_by(rt.alloc(), OTHER_TAGS, TAGGED.as_slice(), task) {
        Ok(words) => assert!(rt; words.as_str() == "<n>{{ name }}"),
        Err(_) => assert!(rt; false, "no memory"),
    }
}

// The same job by an engine that is given its objects.
fn is_made_with_objects(alloc: Global) -> bool {
    let job = Job {
        settings: SETTINGS,
        templates: TEMPLATES.as_slice(),
        given: DATA.as_slice(),
        floats: Floats::Refuse,
        task: Task::One { name: "a.html" },
    };
    match make_with(alloc, tera::CallerObjects::new(alloc), &job, &mut Unwatched) {
        Ok(made) => match words_of_made(alloc, &made) {
            Ok(words) => words.as_str() == "<T><b>&lt;n&gt;</b>",
            Err(_) => false,
        },
        Err(_) => false,
    }
}

#[test]
fn objects_are_given(rt: HostRuntime) {
    assert!(rt; is_made_with_objects(rt.alloc()));
}

#[test]
fn engines_make_pages_and_previews(rt: HostRuntime) {
    let alloc = rt.alloc();
    let templates = [
        ("a.txt", "{{ <X/> }}"),
        (
            "_x",
            "{% component X(n = \"<\") %}{{ n }}{% endcomponent %}",
        ),
    ];
    let Ok(mut engine) = tera::Tera::new(alloc) else {
        assert!(rt; false, "no engine");
        return;
    };
    assert!(rt; furnish(alloc, &mut engine, &SETTINGS, templates.as_slice()).is_ok());
    let context = tera::Context::new(alloc);
    match pages(alloc, &engine, &context, &mut Unwatched) {
        Ok(pages) => assert!(rt; pages.len() == 1),
        Err(_) => assert!(rt; false, "no pages"),
    }
    match previews(alloc, &engine, &context, true) {
        Ok(previews) => match previews.first() {
            Some(preview) => match &preview.answer {
                Ok(text) => assert!(rt; text.as_str() == "&lt;"),
                Err(_) => assert!(rt; false, "no text"),
            },
            None => assert!(rt; false, "no preview"),
        },
        Err(_) => assert!(rt; false, "no previews"),
    }
    match syntax_errors(alloc, &SETTINGS, templates.as_slice()) {
        Ok(errors) => assert!(rt; errors.is_empty()),
        Err(_) => assert!(rt; false, "refused"),
    }
}
