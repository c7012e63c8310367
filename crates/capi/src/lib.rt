// The C interface: each call of the product, with its answer as document 01's number and values. The header is include/duggfrask.h; `capi_c` gives the calls
// out.
#![tactic(auto)]

ghost use Rattle.std.specs.Prelude.{◌≡◌, get_or};
ghost use Rattle.site.specs.Record.{fault_of};
ghost use Rattle.site.specs.Reach.{clash_answer};
ghost use Rattle.site.specs.Edit.{set_load_of, set_reach_of, clear_reach_of};
ghost use Rattle.site.specs.Given.{done_given, clash_given};
ghost use Rattle.judges.specs.Judges.{load_answer, chain_answer, class_answer, least_answer};
ghost use Rattle.judges.specs.Given.{load_given, chain_given, class_given, least_given};
ghost use Rattle.heaviest.specs.Sets.{heaviest_of};
ghost use Rattle.heaviest.specs.Given.{heaviest_given};
ghost use Rattle.planner.specs.Plan.{plan_answer, plan_table};
ghost use Rattle.planner.specs.Given.{plan_given};
ghost use Rattle.search.specs.Search.{search_answer, search_table};
ghost use Rattle.search.specs.Given.{search_given};
ghost use Rattle.finder.specs.Find.{find_answer, find_table, over_full_answer};
ghost use Rattle.finder.specs.Given.{find_given, over_full_given};
ghost use Rattle.handheld.specs.Change.{change_answer, change_site, change_table, changed_of};
ghost use Rattle.handheld.specs.Given.{change_given};
ghost use Rattle.checker.specs.Check.{check_answer};
ghost use Rattle.checker.specs.Given.{check_given};
ghost use Rattle.wordtable.specs.Plan.{plan_words_answer, plan_words};
ghost use Rattle.wordtable.specs.Check.{check_words_answer};
ghost use Rattle.wordtable.specs.Forms.{form_answer, to_words, to_bytes};
ghost use Rattle.wordtable.specs.Given.{form_given};
ghost use Rattle.mender.specs.Mend.{mend_answer, mend_table, mend_list};
ghost use Rattle.mender.specs.Given.{mend_given};
ghost use Rattle.numbering.specs.Renumber.{renumber_of};
ghost use Rattle.numbering.specs.Carried.{carry_answer, carry_table};
ghost use Rattle.numbering.specs.Given.{carry_given};
ghost use Rattle.shares.specs.Share.{share_of, default_repeats};
ghost use Rattle.shares.specs.Given.{share_given};
ghost use Rattle.records.specs.Given.{written_given};
ghost use Rattle.sitefile.specs.Read.{read_site};
ghost use Rattle.sitefile.specs.Write.{site_written, site_out};
ghost use Rattle.planfile.specs.Read.{read_plan, plan_table_read};
ghost use Rattle.planfile.specs.Write.{plan_written, plan_out};
ghost use Rattle.planfile.specs.Given.{plan_written_given};
ghost use Rattle.sheet.specs.Read.{read_sheet};
ghost use Rattle.sheet.specs.Write.{sheet_written, sheet_out};
ghost use Rattle.tidying.specs.Tidy.{tidy_answer, tidy_out};
ghost use Rattle.tidying.specs.Given.{tidy_given};
ghost use Rattle.admission.specs.Admit.{admit_answer};
ghost use Rattle.admission.specs.Beside.{beside_answer};
ghost use Rattle.admission.specs.Given.{admit_given, beside_given};
ghost use Rattle.records.specs.Write.{written, laid_over};
ghost use Rattle.say_answers.specs.Said.{call_said};
ghost use Rattle.whytext.specs.Text.{why_written, why_out};
ghost use Rattle.listhead.specs.Listing.{listing};
ghost use Rattle.told.specs.Told.{numbered, told, told_renumbered};
ghost use Rattle.toldfiles.specs.Files.{told_edited, told_changed, told_site_read, told_plan_read, told_sheet_read};

use flowlist::Flow;
use shares::{Fragments, Repeats, Slots};
use site::Site;
use told::{Answer, RenumberedC};
use toldfiles::{Blocked, EditedSite, PlanReadC};

// The version of the header, include/duggfrask.h: tools/version holds it to that.
const VERSION: usize = 4;

// The calls. Each makes its call and converts the answer; a cell is named by a number of two bytes.
#[unsafe(no_mangle)]
pub extern "C" fn dugg_fault(site: Site) -> Answer
    ensures { result ≡ told (done_given (fault_of site)) }
{
    Answer::from(site.accepted())
}

#[unsafe(no_mangle)]
pub extern "C" fn dugg_clash(site: Site, a: u16, b: u16) -> Answer
    ensures { result ≡ told (clash_given (clash_answer site a b)) }
{
    Answer::from(site.clash(a as usize, b as usize))
}

#[unsafe(no_mangle)]
pub extern "C" fn dugg_set_load(site: Site, cell: u16, load: u16) -> EditedSite
    ensures { result ≡ told_edited (set_load_of site cell load) }
{
    EditedSite::from(site.set_load(cell as usize, load))
}

// It only looks like `dugg_clear_reach`: C needs each call by its own name.
#[unsafe(no_mangle)]
pub extern "C" fn dugg_set_reach(site: Site, from: u16, to: u16) -> EditedSite
    ensures { result ≡ told_edited (set_reach_of site from to) }
{
    EditedSite::from(site.set_reach(from as usize, to as usize))
}

#[unsafe(no_mangle)]
pub extern "C" fn dugg_clear_reach(site: Site, from: u16, to: u16) -> EditedSite
    ensures { result ≡ told_edited (clear_reach_of site from to) }
{
    EditedSite::from(site.clear_reach(from as usize, to as usize))
}

// It only looks like `dugg_chain`, `dugg_class`, `dugg_least` and `dugg_renumber`: C needs each call by its own name.
#[unsafe(no_mangle)]
pub extern "C" fn dugg_load_test(site: Site) -> Answer
    ensures { result ≡ told (load_given (load_answer site)) }
{
    Answer::from(judges::load_test(site))
}

#[unsafe(no_mangle)]
pub extern "C" fn dugg_chain(site: Site) -> Answer
    ensures { result ≡ told (chain_given (chain_answer site)) }
{
    Answer::from(judges::chain(site))
}

#[unsafe(no_mangle)]
pub extern "C" fn dugg_class(site: Site) -> Answer
    ensures { result ≡ told (class_given (class_answer site)) }
{
    Answer::from(judges::in_class(site))
}

#[unsafe(no_mangle)]
pub extern "C" fn dugg_least(site: Site) -> Answer
    ensures { result ≡ told (least_given (least_answer site)) }
{
    Answer::from(judges::least(site))
}

#[unsafe(no_mangle)]
pub extern "C" fn dugg_heaviest(site: Site) -> Answer
    ensures { result ≡ told (heaviest_given (heaviest_of site)) }
{
    Answer::from(heaviest::heaviest(site))
}

// It only looks like `dugg_write_site`, `dugg_write_sheet` and `dugg_why`: C needs each call by its own name.
#[unsafe(no_mangle)]
pub extern "C" fn dugg_plan(site: Site, table: &mut [u8]) -> Answer
    ensures value { result ≡ told (plan_given (plan_answer site table.old)) }
    ensures table_after { table.new ≡ plan_table site table.old }
{
    Answer::from(planner::plan(site, table))
}

#[unsafe(no_mangle)]
pub extern "C" fn dugg_search(site: Site, limit: u64, table: &mut [u8]) -> Answer
    ensures value { result ≡ told (search_given (search_answer site limit table.old)) }
    ensures table_after { table.new ≡ search_table site limit table.old }
{
    Answer::from(search::search(site, limit, table))
}

#[unsafe(no_mangle)]
pub extern "C" fn dugg_find(site: Site, limit: u64, table: &mut [u8]) -> Answer
    ensures value { result ≡ told (find_given (find_answer site limit table.old)) }
    ensures table_after { table.new ≡ find_table site limit table.old }
{
    Answer::from(finder::find(site, limit, table))
}

#[unsafe(no_mangle)]
pub extern "C" fn dugg_over_full(site: Site, cells: u32) -> Answer
    ensures { result ≡ told (over_full_given (over_full_answer site cells)) }
{
    Answer::from(finder::over_full(site, cells))
}

// The change of a load by value, with its answer as a C caller gets it.
fn changed_by(site: Site, cell: u16, load: u16, table: &mut [u8]) -> EditedSite
    ensures { (result ≡ told_changed (changed_of site cell load table.old))
        × (table.new ≡ change_table site cell load table.old) }
{
    EditedSite::from(handheld::changed_load(site, cell as usize, load, table))
}

#[unsafe(no_mangle)]
pub extern "C" fn dugg_change_load(
    site: &mut Site,
    cell: u16,
    load: u16,
    table: &mut [u8],
) -> Answer
    ensures { (result ≡ told (change_given (change_answer site.old cell load table.old)))
        × (site.new ≡ change_site site.old cell load table.old)
        × (table.new ≡ change_table site.old cell load table.old) }
{
    let old = *site;
    let e = changed_by(old, cell, load, table);
    *site = e.site;
    e.answer
}

#[unsafe(no_mangle)]
pub extern "C" fn dugg_check(site: Site, table: &[u8]) -> Answer
    ensures { result ≡ told (check_given (check_answer site table.now)) }
{
    Answer::from(checker::check(site, table))
}

#[unsafe(no_mangle)]
pub extern "C" fn dugg_plan_words(site: Site, words: &mut [u32]) -> Answer
    ensures value { result ≡ told (plan_given (plan_words_answer site words.old)) }
    ensures words_after { words.new ≡ plan_words site words.old }
{
    Answer::from(wordtable::plan_words(site, words))
}

#[unsafe(no_mangle)]
pub extern "C" fn dugg_check_words(site: Site, words: &[u32]) -> Answer
    ensures { result ≡ told (check_given (check_words_answer site words.now)) }
{
    Answer::from(wordtable::check_words(site, words))
}

#[unsafe(no_mangle)]
pub extern "C" fn dugg_to_words(site: Site, table: &[u8], words: &mut [u32]) -> Answer
    ensures value { result ≡ told (form_given (form_answer site table.now words.old)) }
    ensures words_after { words.new ≡ to_words site table.now words.old }
{
    Answer::from(wordtable::to_words(site, table, words))
}

#[unsafe(no_mangle)]
pub extern "C" fn dugg_to_bytes(site: Site, words: &[u32], table: &mut [u8]) -> Answer
    ensures value { result ≡ told (form_given (form_answer site table.old words.now)) }
    ensures table_after { table.new ≡ to_bytes site words.now table.old }
{
    Answer::from(wordtable::to_bytes(site, words, table))
}

#[unsafe(no_mangle)]
pub extern "C" fn dugg_mend(site: Site, table: &mut [u8], changes: &mut [u16]) -> Answer
    ensures value { result ≡ told (mend_given (mend_answer site table.old changes.old)) }
    ensures table_after { table.new ≡ mend_table site table.old changes.old }
    ensures changes_after { changes.new ≡ mend_list site table.old changes.old }
{
    Answer::from(mender::mend(site, table, changes))
}

#[unsafe(no_mangle)]
pub extern "C" fn dugg_renumber(site: Site) -> RenumberedC
    ensures { result ≡ told_renumbered (renumber_of site) }
{
    RenumberedC::from(numbering::renumber(site))
}

#[unsafe(no_mangle)]
pub extern "C" fn dugg_carry(site: Site, from: &[u8], to: &mut [u8]) -> Answer
    ensures value { result ≡ told (carry_given (carry_answer site from.now to.old)) }
    ensures to_after { to.new ≡ carry_table site from.now to.old }
{
    Answer::from(numbering::carry(site, from, to))
}

#[unsafe(no_mangle)]
pub extern "C" fn dugg_share(slots: u16, burst: u16, period: u16) -> Answer
    ensures { result ≡ told (share_given (share_of slots burst period default_repeats)) }
{
    Answer::from(shares::share(
        Slots(slots as u32),
        Fragments(burst as u32),
        Slots(period as u32),
    ))
}

#[unsafe(no_mangle)]
pub extern "C" fn dugg_share_repeated(slots: u16, burst: u16, period: u16, repeats: u16) -> Answer
    ensures { result ≡ told (share_given (share_of slots burst period repeats)) }
{
    Answer::from(shares::share_of(
        Slots(slots as u32),
        Fragments(burst as u32),
        Slots(period as u32),
        Repeats(repeats as u32),
    ))
}

#[unsafe(no_mangle)]
pub extern "C" fn dugg_read_site(bytes: &[u8]) -> EditedSite
    ensures { result ≡ told_site_read (read_site bytes.now) }
{
    EditedSite::from(sitefile::read_site(bytes))
}

#[unsafe(no_mangle)]
pub extern "C" fn dugg_write_site(site: Site, out: &mut [u8]) -> Answer
    ensures value { result ≡ told (written_given (site_written site out.old)) }
    ensures out_after { out.new ≡ site_out site out.old }
{
    Answer::from(sitefile::write_site(site, out))
}

// It only looks like `dugg_tidy` and `dugg_list`: C needs each call by its own name.
#[unsafe(no_mangle)]
pub extern "C" fn dugg_read_plan(bytes: &[u8], table: &mut [u8]) -> PlanReadC
    ensures value { result ≡ told_plan_read (read_plan bytes.now table.old) }
    ensures table_after { table.new ≡ plan_table_read bytes.now table.old }
{
    PlanReadC::from(planfile::read_plan(bytes, table))
}

#[unsafe(no_mangle)]
pub extern "C" fn dugg_write_plan(site: Site, table: &[u8], out: &mut [u8]) -> Answer
    ensures value { result ≡ told (plan_written_given (plan_written site table.now out.old)) }
    ensures out_after { out.new ≡ plan_out site table.now out.old }
{
    Answer::from(planfile::write_plan(site, table, out))
}

#[unsafe(no_mangle)]
pub extern "C" fn dugg_read_sheet(
    bytes: &[u8],
    slots: u16,
    channels: u16,
    blocked: Blocked,
    rule: u16,
) -> EditedSite
    ensures { result ≡ told_sheet_read (read_sheet bytes.now slots channels blocked.bits rule) }
{
    let bits = blocked.bits;
    EditedSite::from(sheet::read_sheet(bytes, slots, channels, bits, rule))
}

#[unsafe(no_mangle)]
pub extern "C" fn dugg_write_sheet(site: Site, out: &mut [u8]) -> Answer
    ensures value { result ≡ told (written_given (sheet_written site out.old)) }
    ensures out_after { out.new ≡ sheet_out site out.old }
{
    Answer::from(sheet::write_sheet(site, out))
}

#[unsafe(no_mangle)]
pub extern "C" fn dugg_tidy(sheet: &[u8], out: &mut [u8]) -> Answer
    ensures value { result ≡ told (tidy_given (tidy_answer sheet.now out.old)) }
    ensures out_after { out.new ≡ tidy_out sheet.now out.old }
{
    Answer::from(tidying::tidy(sheet, out))
}

// It only looks like `dugg_admit_beside`: C needs each call by its own name.
#[unsafe(no_mangle)]
pub extern "C" fn dugg_admit(site: Site, flows: &[Flow]) -> Answer
    ensures { result ≡ told (admit_given (admit_answer site flows.now)) }
{
    Answer::from(admission::admit(site, flows))
}

#[unsafe(no_mangle)]
pub extern "C" fn dugg_admit_beside(site: Site, flows: &[Flow]) -> Answer
    ensures { result ≡ told (beside_given (beside_answer site flows.now)) }
{
    Answer::from(admission::admit_beside(site, flows))
}

#[unsafe(no_mangle)]
pub extern "C" fn dugg_words(given: Answer, call: u64, out: &mut [u8]) -> Answer
    ensures value { result ≡ told (written_given (written (call_said call given.number (get_or given.value 0 0) (get_or given.value 1 0)
        (get_or given.value 2 0)) out.old)) }
    ensures out_after { out.new ≡ laid_over (call_said call given.number (get_or given.value 0 0) (get_or given.value 1 0)
        (get_or given.value 2 0)) out.old }
{
    let value = given.value;
    Answer::from(calltext::call_text(
        call as usize,
        given.number as usize,
        value[0] as usize,
        value[1] as usize,
        value[2] as usize,
        out,
    ))
}

#[unsafe(no_mangle)]
pub extern "C" fn dugg_why(site: Site, out: &mut [u8]) -> Answer
    ensures value { result ≡ told (written_given (why_written site out.old)) }
    ensures out_after { out.new ≡ why_out site out.old }
{
    Answer::from(whytext::why_text(site, out))
}

#[unsafe(no_mangle)]
pub extern "C" fn dugg_list(bytes: &[u8], out: &mut [u8]) -> Answer
    ensures value { result ≡ told (written_given (written (listing bytes.now) out.old)) }
    ensures out_after { out.new ≡ laid_over (listing bytes.now) out.old }
{
    Answer::from(listtext::list_text(bytes, out))
}

#[unsafe(no_mangle)]
pub extern "C" fn dugg_version() -> Answer
    ensures { result ≡ numbered 0 4 0 0 }
{
    told::give(0, VERSION, 0, 0)
}
