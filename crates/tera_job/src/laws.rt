// What holds of the definitions that contracts cite. Nothing here runs.
ghost use Rattle.tera_job.specs.Laws.{DataIsUnsafe, MarkupIsNoneOfTheData};

/// No text that data gives is marked safe, whatever the files have.
pub fn data_is_unsafe()
    ensures { DataIsUnsafe }
{}

/// No `<`, `>`, `"` or `'` of the data reaches a page as itself whose template escapes, unless a template marks it safe: all that are
/// on the page stand in the texts of templates.
pub fn markup_is_none_of_the_data()
    ensures { MarkupIsNoneOfTheData }
{}
