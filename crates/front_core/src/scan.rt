//! Separates a command line into arguments and options.
use crate::mistake::Mistake;
use front_defs::{SETTINGS, Setting, View};
use std::alloc::Global;

/// An option and the text of its number.
#[derive(Clone, Copy, Debug)]
pub struct Given<'a> {
    pub setting: Setting,
    pub word: &'a str,
}

/// The arguments and options of a command line.
#[derive(Drop)]
pub struct Scan<'a> {
    pub arguments: Vec<&'a str>,
    pub taps: Vec<&'a str>,
    pub output: Option<&'a str>,
    pub settings: Vec<Given<'a>>,
    pub view: Option<View>,
    pub block: bool,
    pub upgrade: bool,
    pub plain: bool,
    pub quiet: bool,
    pub help: bool,
    pub version: bool,
    pub ended: bool,
}

/// Returns the rest of `word` after the prefix `name`, or none if it has no such prefix.
fn value_in<'a>(word: &'a str, name: &str) -> Option<&'a str> {
    word.strip_prefix(name)
}

/// Returns the next argument as the value of an option. A value that begins with `-` has to be
/// joined to its option, except `-` for standard output.
fn value_after<'a>(option: &'a str, next: Option<&'a str>) -> Result<&'a str, Mistake<'a>> {
    match next {
        Some("-") if option != "-t" && option != "--tap" => Ok("-"),
        Some(value) if value.starts_with('-') => Err(Mistake::OptionForValue(option, value)),
        Some(value) => Ok(value),
        None => Err(Mistake::NoValue(option)),
    }
}

/// Returns the option for a number that a word names, and the value that is joined to it.
fn setting_in<'a>(word: &'a str) -> Option<(Setting, Option<&'a str>)> {
    for setting in SETTINGS {
        match value_in(word, setting.name()) {
            Some("") => return Some((setting, None)),
            Some(rest) => {
                if let Some(value) = value_in(rest, "=") {
                    return Some((setting, Some(value)));
                }
            }
            None => (),
        }
    }
    None
}

/// Returns the view that an option names.
fn view_named(word: &str) -> Option<View> {
    match word {
        "--json" => Some(View::Json),
        "--summary" => Some(View::Summary),
        "--summary=json" => Some(View::JsonSummary),
        _ => None,
    }
}

impl<'a> Scan<'a> {
    fn new(alloc: Global) -> Scan<'a> {
        Scan {
            arguments: Vec::new(alloc),
            taps: Vec::new(alloc),
            output: None,
            settings: Vec::new(alloc),
            view: None,
            block: false,
            upgrade: false,
            plain: false,
            quiet: false,
            help: false,
            version: false,
            ended: false,
        }
    }

    /// Adds an argument. The name `-` means standard input.
    fn argument(&mut self, word: &'a str) -> Result<(), Mistake<'a>> {
        self.arguments.push(if word == "-" && !self.ended {
            "/dev/stdin"
        } else {
            word
        })?;
        Ok(())
    }

    /// Sets the value of an option.
    fn value(&mut self, option: &'a str, value: &'a str) -> Result<(), Mistake<'a>> {
        if value.is_empty() {
            return Err(Mistake::EmptyValue(option));
        }
        match option {
            "-t" | "--tap" => self.taps.push(value)?,
            _ if self.output.is_some() => return Err(Mistake::OutputTwice(value)),
            _ => self.output = Some(value),
        }
        Ok(())
    }

    /// Returns the text of an option's number.
    pub fn word_of(&self, setting: Setting) -> Option<&'a str> {
        self.settings
            .iter()
            .find(|given| given.setting == setting)
            .map(|given| given.word)
    }

    /// Sets an option's number.
    fn set(&mut self, setting: Setting, word: &'a str) -> Result<(), Mistake<'a>> {
        if word.is_empty() {
            return Err(Mistake::EmptyValue(setting.name()));
        }
        if self.word_of(setting).is_some() {
            return Err(Mistake::SettingTwice(setting, word));
        }
        self.settings.push(Given { setting, word })?;
        Ok(())
    }

    /// Sets the value of a short option. Returns whether the value is the next argument.
    fn short_value(
        &mut self,
        option: &'a str,
        joined: &'a str,
        next: Option<&'a str>,
    ) -> Result<bool, Mistake<'a>> {
        if !joined.is_empty() {
            self.value(option, joined)?;
            return Ok(false);
        }
        self.value(option, value_after(option, next)?)?;
        Ok(true)
    }

    /// Sets the first of some short options, if it takes no value. Returns the letters after it.
    fn letter(&mut self, letters: &'a str) -> Option<&'a str> {
        if let Some(more) = value_in(letters, "h") {
            self.help = true;
            return Some(more);
        }
        if let Some(more) = value_in(letters, "V") {
            self.version = true;
            return Some(more);
        }
        let more = value_in(letters, "q")?;
        self.quiet = true;
        Some(more)
    }

    /// Sets the short options of one argument. Returns whether the next argument is a value.
    fn short(&mut self, word: &'a str, next: Option<&'a str>) -> Result<bool, Mistake<'a>> {
        let Some(mut letters) = value_in(word, "-") else {
            return Err(Mistake::UnknownOption(word));
        };
        for _ in 0..word.len() {
            if letters.is_empty() {
                break;
            }
            if let Some(joined) = value_in(letters, "o") {
                return self.short_value("-o", joined, next);
            }
            if let Some(joined) = value_in(letters, "t") {
                return self.short_value("-t", joined, next);
            }
            let Some(more) = self.letter(letters) else {
                return Err(Mistake::UnknownOption(word));
            };
            letters = more;
        }
        Ok(false)
    }

    /// Sets a long option without a value. Returns whether it is such an option.
    fn switch(&mut self, word: &str) -> bool {
        match word {
            "--" => self.ended = true,
            "--help" => self.help = true,
            "--version" => self.version = true,
            "--quiet" => self.quiet = true,
            "--plain" => self.plain = true,
            "--block" => self.block = true,
            "--upgrade" => self.upgrade = true,
            _ => return false,
        }
        true
    }

    /// Sets the view. Fails if another one is set.
    fn set_view(&mut self, view: View) -> Result<(), Mistake<'a>> {
        let is_other = self.view.is_some_and(|other| other != view);
        if is_other {
            return Err(Mistake::TwoViews);
        }
        self.view = Some(view);
        Ok(())
    }

    /// Sets a long option with a value. Returns whether the value is the next argument.
    fn long(&mut self, word: &'a str, next: Option<&'a str>) -> Result<bool, Mistake<'a>> {
        if word == "--tap" || word == "--output" {
            self.value(word, value_after(word, next)?)?;
            return Ok(true);
        }
        if let Some((setting, joined)) = setting_in(word) {
            let value = match joined {
                Some(value) => value,
                None => value_after(word, next)?,
            };
            self.set(setting, value)?;
            return Ok(joined.is_none());
        }
        if let Some(name) = value_in(word, "--tap=") {
            self.value("--tap", name)?;
        } else if let Some(name) = value_in(word, "--output=") {
            self.value("--output", name)?;
        } else if let Some(form) = value_in(word, "--summary=") {
            return Err(Mistake::NoSummary(form));
        } else {
            return Err(Mistake::UnknownOption(word));
        }
        Ok(false)
    }

    /// Adds an argument or sets an option. Returns whether the next argument is its value.
    fn take(&mut self, word: &'a str, next: Option<&'a str>) -> Result<bool, Mistake<'a>> {
        if self.ended || word == "-" || !word.starts_with('-') {
            self.argument(word)?;
            return Ok(false);
        }
        if value_in(word, "--").is_none() {
            return self.short(word, next);
        }
        if self.switch(word) {
            return Ok(false);
        }
        if let Some(view) = view_named(word) {
            self.set_view(view)?;
            return Ok(false);
        }
        self.long(word, next)
    }
}

/// Separates the arguments of a command line into arguments and options. Fails with the first
/// mistake.
pub fn tell_apart<'a>(alloc: Global, words: &'a [String]) -> Result<Scan<'a>, Mistake<'a>> {
    let mut found = Scan::new(alloc);
    let mut is_value = false;
    for place in 0..words.len() {
        if is_value {
            is_value = false;
            continue;
        }
        let next = words.get(place + 1).map(|word| word.as_str());
        is_value = found.take(words[place].as_str(), next)?;
    }
    Ok(found)
}
