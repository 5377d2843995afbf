//! The laws that follow from the definitions of JSON lines.
ghost use Rattle.event_json.specs.Laws.{JsonSaysTheReport};

/// The line of the report can be read from the JSON line of the same outcome.
pub fn json_says_what_the_report_says()
    ensures { JsonSaysTheReport }
{}
