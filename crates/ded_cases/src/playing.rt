//! The cases one behind the other, each heading with what stands under it.

use crate::calling::{call_question, put_call, text_question};
use ada_tree::Memory;
use case_form::outside::{choices, loads, seeded, sink};
use case_form::programs::known_of;
use case_form::{Failing, Question, Stage, Text, expand, text_named};
use case_machines::rewritings::normal_question;
use case_machines::{Judging, judge_question, run_question, value};
use case_rules::{
    Told, choices_file, event, inputs, neighbours, number, numbers, origin, scopes, sequence,
    static_expression, type_table, types,
};
use case_texts::expressions::{Wanted, expression, line_col, names, token_message, tokens};
use case_texts::programs::{fronts, message, print_question, printed_len, read, text_message};
use case_texts::sameness::{built, copy, outline, same};
use std::alloc::{AllocError, Global};
use syn_event::Mode;

/// The transcript of a file of cases: the same with the answers in their places.
pub(crate) fn transcript(alloc: Global, cases: &str) -> Result<String, Memory> {
    let whole = cases.strip_suffix('\n').unwrap_or(cases);
    let mut playing = Playing::new(alloc);
    for section in whole.strip_prefix("== ").unwrap_or(whole).split("\n== ") {
        playing.play(section)?;
    }
    Ok(playing.out)
}

// What stands so far, and the transcript so far.
#[derive(Drop)]
struct Playing {
    alloc: Global,
    texts: Vec<Text>,
    stage: Stage,
    failing: Failing,
    words: String,
    out: String,
}

// A heading's subject and what is asked of it: the words behind the subject, and the text behind `in`.
#[derive(Clone, Copy)]
struct Asked<'a, 't> {
    subject: &'a str,
    rest: &'a str,
    text: Option<&'t Text>,
}

impl Playing {
    fn new(alloc: Global) -> Playing {
        Playing {
            alloc,
            texts: Vec::new(alloc),
            stage: Stage::new(alloc),
            failing: Failing::new(alloc),
            words: String::new(alloc),
            out: String::new(alloc),
        }
    }

    // A heading with what stands under it.
    fn play(&mut self, section: &str) -> Result<(), Memory> {
        let (heading, body) = section.split_once('\n').unwrap_or((section, ""));
        let has_body = section.len() > heading.len();
        let (word, rest) = heading.split_once(' ').unwrap_or((heading, ""));
        if word == "status" {
            return put_call(
                self.alloc,
                &self.stage,
                &self.failing,
                self.words.as_str(),
                &mut self.out,
            );
        }
        self.put_heading(heading)?;
        if self.is_set(word, rest, body, has_body)? {
            self.put_body(body, has_body)
        } else {
            self.answer_questions(heading, body, has_body)
        }
    }

    fn put_heading(&mut self, heading: &str) -> Result<(), AllocError> {
        self.out.push_str("== ")?;
        self.out.push_str(heading)?;
        self.out.push_str("\n")
    }

    fn put_body(&mut self, body: &str, has_body: bool) -> Result<(), Memory> {
        if has_body {
            self.out.push_str(body)?;
            self.out.push_str("\n")?;
        }
        Ok(())
    }

    // Takes in what is no question; whether it was such a heading.
    fn is_set(
        &mut self,
        word: &str,
        rest: &str,
        body: &str,
        has_body: bool,
    ) -> Result<bool, Memory> {
        match word {
            "note" => {}
            "case" => {
                self.stage = Stage::new(self.alloc);
                self.failing = Failing::new(self.alloc);
            }
            "text" => {
                let text = self.body_of(body, has_body)?;
                let text = Text::new(self.alloc, &self.texts, rest, text.as_str())?;
                self.texts.push(text)?;
            }
            "file" => {
                let written = self.body_of(body, has_body)?;
                let bytes = expand(self.alloc, &self.texts, written.as_str())?.bytes;
                self.stage.add(self.alloc, rest, bytes)?;
            }
            "words" => self.words = String::from_str(self.alloc, rest)?,
            "fails" => self.failing.add(rest)?,
            _ => return Ok(false),
        }
        Ok(true)
    }

    // The lines under a heading, each with its end.
    fn body_of(&self, body: &str, has_body: bool) -> Result<String, Memory> {
        let mut lines = String::from_str(self.alloc, body)?;
        if has_body {
            lines.push('\n')?;
        }
        Ok(lines)
    }

    // Answers the questions under a heading.
    fn answer_questions(
        &mut self,
        heading: &str,
        body: &str,
        has_body: bool,
    ) -> Result<(), Memory> {
        let (front, name) = heading.split_once(" in ").unwrap_or((heading, ""));
        let (subject, rest) = front.split_once(' ').unwrap_or((front, ""));
        let text = text_named(&self.texts, name);
        let asked = Asked {
            subject,
            rest,
            text,
        };
        let alloc = self.alloc;
        match subject {
            "names" => return names(alloc, body, &mut self.out),
            "scopes" => return scopes(alloc, body, &mut self.out),
            "choices" => return Ok(choices(alloc, rest, body, &mut self.out)?),
            "loads" => return Ok(loads(alloc, &self.stage, rest, body, &mut self.out)?),
            "sink" => return Ok(sink(alloc, rest, body, &mut self.out)?),
            _ => {}
        }
        for written in body.lines() {
            if !written.is_empty() {
                answer(
                    alloc,
                    &self.texts,
                    &self.stage,
                    asked,
                    written,
                    &mut self.out,
                )?;
            }
            self.out.push('\n')?;
        }
        Ok(())
    }
}

// Answers a question.
fn answer(
    alloc: Global,
    texts: &[Text],
    stage: &Stage,
    asked: Asked<'_, '_>,
    written: &str,
    out: &mut String,
) -> Result<(), Memory> {
    match asked.subject {
        "same" => same(alloc, texts, asked.text, false, written, out),
        "same_behind" => same(alloc, texts, asked.text, true, written, out),
        "static" => static_expression(alloc, texts, asked.text, written, out),
        "value" => value(alloc, texts, asked.text, asked.rest, written, out),
        "calls" => call_question(alloc, stage, written, out),
        "texts" => {
            let question = Question::new(alloc, texts, asked.text, ("", ""), written)?;
            text_question(alloc, stage, asked.rest, &question, out)
        }
        "number"
        | "origins"
        | "sequence"
        | "neighbours"
        | "inputs"
        | "run"
        | "judge"
        | "judge_all" => {
            let question = Question::new(alloc, texts, None, ("", ""), written)?;
            answer_of_program(alloc, asked, &question, out)
        }
        _ => {
            let question = Question::new(alloc, texts, asked.text, ("", ""), written)?;
            answer_of_text(alloc, asked, &question, out)
        }
    }
}

// Answers a question on the program of the text behind `in`.
fn answer_of_program(
    alloc: Global,
    asked: Asked<'_, '_>,
    question: &Question<'_>,
    out: &mut String,
) -> Result<(), Memory> {
    let text = match asked.text {
        Some(text) => text.front(),
        None => &[],
    };
    if asked.subject == "judge" || asked.subject == "judge_all" {
        return answer_of_original(alloc, asked, text, question, out);
    }
    match known_of(alloc, text, Mode::Any)? {
        Some(mut known) => match asked.subject {
            "number" => number(alloc, &mut known, question, out),
            "origins" => origin(alloc, &known, question, out),
            "sequence" => sequence(alloc, &known, Mode::Any, question, out),
            "neighbours" => neighbours(
                alloc,
                &known,
                Mode::Any,
                asked.rest.parse().unwrap_or(0),
                question,
                out,
            ),
            "inputs" => inputs(alloc, &known, question, out),
            _ => run_question(
                alloc,
                &known,
                asked.rest.parse().unwrap_or(0),
                question,
                out,
            ),
        },
        None => Ok(question.answer(out, "no program")?),
    }
}

// Answers a question of events that are judged.
fn answer_of_original(
    alloc: Global,
    asked: Asked<'_, '_>,
    text: &[u8],
    question: &Question<'_>,
    out: &mut String,
) -> Result<(), Memory> {
    let judging = if asked.subject == "judge" {
        Judging::Each
    } else {
        Judging::Whole
    };
    let bound = asked.rest.parse().unwrap_or(0);
    match known_of(alloc, text, Mode::Original)? {
        Some(known) => judge_question(alloc, &known, judging, bound, question, out),
        None => Ok(question.answer(out, "no program")?),
    }
}

// Answers a question on its own text.
fn answer_of_text(
    alloc: Global,
    asked: Asked<'_, '_>,
    question: &Question<'_>,
    out: &mut String,
) -> Result<(), Memory> {
    let depth = asked.rest.parse::<u32>().unwrap_or(0);
    match asked.subject {
        "tokens" => tokens(alloc, question, false, out),
        "token_places" => tokens(alloc, question, true, out),
        "line_col" => line_col(question, out),
        "expression" => expression(alloc, question, Wanted::Expression, depth, out),
        "measure" => expression(alloc, question, Wanted::Measure, depth, out),
        "printed_expression" => {
            expression(alloc, question, Wanted::Printed(u64::from(depth)), 300, out)
        }
        "range" => expression(alloc, question, Wanted::Range, depth, out),
        "target" => expression(alloc, question, Wanted::Target, depth, out),
        "call" => expression(alloc, question, Wanted::Call, depth, out),
        "choice" => expression(alloc, question, Wanted::Choice, depth, out),
        "types" => types(alloc, question, Told::Marked, out),
        "type_places" => types(alloc, question, Told::Counted, out),
        "type_table" => type_table(alloc, question, 2, 4, out),
        "all_types" => type_table(alloc, question, 0, 0, out),
        _ => answer_more(alloc, asked, question, out),
    }
}

// Answers a question on its own text, on the other subjects.
fn answer_more(
    alloc: Global,
    asked: Asked<'_, '_>,
    question: &Question<'_>,
    out: &mut String,
) -> Result<(), Memory> {
    match asked.subject {
        "read" => read(alloc, question, out),
        "printed" => print_question(alloc, question, out),
        "text_len" => printed_len(alloc, question, out),
        "outline" => outline(alloc, question, out),
        "fronts" => fronts(alloc, question, out),
        "copy" => copy(alloc, question, out),
        "built" => built(alloc, question, out),
        "normal" => normal_question(alloc, question, asked.rest, out),
        "numbers" => numbers(alloc, question, out),
        "events" => event(alloc, question, out),
        "token_message" => token_message(alloc, question, out),
        "text_message" => text_message(alloc, question, out),
        "messages" => message(question, out),
        "seed" => Ok(seeded(asked.rest, question, out)?),
        "choices_file" => choices_file(alloc, question, out),
        _ => Ok(question.answer(out, "no subject of that name")?),
    }
}
