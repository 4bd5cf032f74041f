mod change_texts;
mod fault_tests;
mod meaning_tests;
mod reading;
mod settings_texts;
mod spoilt_tests;
mod thrown_tests;
