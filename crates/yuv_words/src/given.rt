//! The options that are given, and their values.
ghost use Rattle.std.specs.Prelude.{◌≡◌, length};

use crate::command::Options;
use crate::error::UsageError;
use crate::option_name::{OPTION_COUNT, OptionName};
use crate::values::OptionValue;
use yuv_reports::ReportForm;

/// The text that each option is given: its value, or an empty text if it takes no value. An option that is not given has no text.
#[derive(Clone, Copy)]
pub(crate) struct Given<'a> {
    texts: [Option<&'a str>; OPTION_COUNT],
    ghost all: { length texts ≡ 28 },
}

impl<'a> Given<'a> {
    ghost use Rattle.std.specs.Prelude.{List, ℕ, ◌≡◌, ◌≢◌, ◌∷◌, [], length, IfOk, IfErr, Option};
    ghost use Rattle.yuv_words.specs.Commands.{is_csv, is_json, times, SaysOptions, SaysValue};
    ghost use Rattle.yuv_words.specs.Faults.{HasValueFault, IsNoValue, SpellsNone};
    ghost use Rattle.yuv_words.specs.Reading.{given_to, text_in};
    ghost use Rattle.yuv_words.specs.declared.command.Options.{Options as TheOptions};
    ghost use Rattle.yuv_reports.specs.declared.comparison.ReportForm.{ReportForm as TheForm};
    ghost use Rattle.yuv_words.specs.declared.option_name.OptionName.{OptionName as TheOption};

    /// Returns the state before any argument was read, in which no option is given.
    pub(crate) fn new() -> Self
        ensures { (n : TheOption) → given_to result n ≡ [] }
    {
        Given {
            texts: [None; OPTION_COUNT],
        }
    }

    /// Returns the text that an option is given, or `None` if it is not given.
    pub(crate) fn text(&self, option: OptionName) -> Option<&'a str>
        ensures { given_to self.now option ≡ text_in result }
    {
        self.texts[option.place()]
    }

    /// Records that `option` is given with this text.
    pub(crate) fn set(&mut self, option: OptionName, text: &'a str)
        ensures given { given_to self.new option ≡ text.now ∷ [] }
        ensures others { (n : TheOption) → n ≢ option → given_to self.new n ≡ given_to self.old n }
    {
        self.texts[option.place()] = Some(text);
    }

    /// Returns whether `option` is given.
    pub(crate) fn has(&self, option: OptionName) -> bool
        ensures { length (given_to self.now option) ≡ times result }
    {
        self.text(option).is_some()
    }

    /// Returns the value of `option`, or `None` if it is not given.
    ///
    /// # Errors
    ///
    /// [`UsageError::NotAValue`] if its text is not a value of the option.
    pub(crate) fn value<T: OptionValue>(
        &self,
        option: OptionName,
    ) -> Result<Option<T>, UsageError<'a>>
        requires { (text : List ℕ) → SpellsNone T.Spells text → IsNoValue option text }
        ensures said { IfOk result (λ v. SaysValue T.Spells v (given_to self.now option)) }
        ensures refused { IfErr result (λ _. (v : Option T)
            → ¬ (SaysValue T.Spells v (given_to self.now option))) }
        ensures fault { IfErr result (HasValueFault (given_to self.now)) }
    {
        let Some(word) = self.text(option) else {
            return Ok(None);
        };
        match T::spelled(word) {
            Some(value) => Ok(Some(value)),
            None => Err(UsageError::NotAValue { option, word }),
        }
    }

    /// Returns the options of the command.
    ///
    /// # Errors
    ///
    /// [`UsageError::NotAValue`] if a text is not a value of its option, and [`UsageError::TwoForms`] if both `--csv` and
    /// `--json` are given.
    pub(crate) fn options(&self) -> Result<Options, UsageError<'a>>
        ensures said { IfOk result (SaysOptions (given_to self.now)) }
        ensures refused { IfErr result (λ _. (o : TheOptions) → ¬ (SaysOptions (given_to self.now) o)) }
        ensures fault { IfErr result (HasValueFault (given_to self.now)) }
    {
        Ok(Options {
            form: self.report_form()?,
            header: self.has(OptionName::Header),
            ssim: self.has(OptionName::Ssim),
            frames: self.has(OptionName::Frames),
            exact: self.has(OptionName::Exact),
            half: self.has(OptionName::Half),
            planes: self.has(OptionName::Planes),
            histogram: self.has(OptionName::Histogram),
            raw_output: self.has(OptionName::RawOutput),
            progress: self.has(OptionName::Progress),
            force: self.has(OptionName::Force),
            salvage: self.has(OptionName::Salvage),
            skip: self.value(OptionName::Skip)?,
            skip_second: self.value(OptionName::SkipSecond)?,
            count: self.value(OptionName::Count)?,
            frame: self.value(OptionName::Frame)?,
            matrix: self.value(OptionName::Matrix)?,
            range: self.value(OptionName::Range)?,
            plane: self.value(OptionName::Plane)?,
            crop: self.value(OptionName::Crop)?,
            gain: self.value(OptionName::Gain)?,
            format: self.value(OptionName::Format)?,
            rate: self.value(OptionName::Rate)?,
            aspect: self.value(OptionName::Aspect)?,
            raw: self.value(OptionName::Raw)?,
            raw_second: self.value(OptionName::RawSecond)?,
            max_pixels: self.value(OptionName::MaxPixels)?,
        })
    }

    /// Returns the form of a report: the form of `--csv` or `--json`, or lines if neither is given.
    ///
    /// # Errors
    ///
    /// [`UsageError::TwoForms`] if both are given.
    fn report_form(&self) -> Result<ReportForm, UsageError<'a>>
        ensures csv { IfOk result (λ form. length (given_to self.now OptionName.Csv) ≡ times (is_csv form)) }
        ensures json { IfOk result (λ form. length (given_to self.now OptionName.Json) ≡ times (is_json form)) }
        ensures refused { IfErr result (λ _. (form : TheForm)
            → length (given_to self.now OptionName.Csv) ≡ times (is_csv form)
            → length (given_to self.now OptionName.Json) ≢ times (is_json form)) }
        ensures fault { IfErr result (HasValueFault (given_to self.now)) }
    {
        match (self.has(OptionName::Csv), self.has(OptionName::Json)) {
            (false, false) => Ok(ReportForm::Lines),
            (true, false) => Ok(ReportForm::Csv),
            (false, true) => Ok(ReportForm::Json),
            (true, true) => Err(UsageError::TwoForms),
        }
    }
}
