// Heads that clients sent to a listener on 127.0.0.1, byte for byte: curl 7.88.1, `http.client` of Python
// 3.11, and Chromium 156 without a window. Above each stands what the client was told.

/// `curl URL`
pub const CURL_GET: &[u8] =
    b"GET /projects HTTP/1.1\r\nHost: 127.0.0.1:8080\r\nUser-Agent: curl/7.88.1\r\nAccept: */*\r\n\r\n";

/// `curl -0 URL`
pub const CURL_GET_VERSION_1_0: &[u8] =
    b"GET /log HTTP/1.0\r\nHost: 127.0.0.1:8080\r\nUser-Agent: curl/7.88.1\r\nAccept: */*\r\n\r\n";

/// `curl -H 'Connection: close' URL`
pub const CURL_GET_THAT_CLOSES: &[u8] =
    b"GET /log HTTP/1.1\r\nHost: 127.0.0.1:8080\r\nUser-Agent: curl/7.88.1\r\nAccept: */*\r\nConnection: close\r\n\r\n";

/// `curl -X HEAD URL`
pub const CURL_HEAD: &[u8] =
    b"HEAD /log HTTP/1.1\r\nHost: 127.0.0.1:8080\r\nUser-Agent: curl/7.88.1\r\nAccept: */*\r\n\r\n";

/// `curl -X OPTIONS --request-target '*' URL`
pub const CURL_OPTIONS: &[u8] =
    b"OPTIONS * HTTP/1.1\r\nHost: 127.0.0.1:8080\r\nUser-Agent: curl/7.88.1\r\nAccept: */*\r\n\r\n";

/// `curl --request-target log URL`
pub const CURL_TARGET_WITHOUT_SLASH: &[u8] =
    b"GET log HTTP/1.1\r\nHost: 127.0.0.1:8080\r\nUser-Agent: curl/7.88.1\r\nAccept: */*\r\n\r\n";

/// `curl --data-binary @FILE URL`
pub const CURL_POST: &[u8] =
    b"POST /projects/2027-04-01 HTTP/1.1\r\nHost: 127.0.0.1:8080\r\nUser-Agent: curl/7.88.1\r\nAccept: */*\r\nContent-Length: 1078\r\nContent-Type: application/x-www-form-urlencoded\r\n\r\n";

/// `curl -X POST URL`
pub const CURL_POST_WITHOUT_LENGTH: &[u8] =
    b"POST /projects/2027-02-29 HTTP/1.1\r\nHost: 127.0.0.1:8080\r\nUser-Agent: curl/7.88.1\r\nAccept: */*\r\n\r\n";

/// `curl -T FILE URL`
pub const CURL_PUT: &[u8] =
    b"PUT /project/30000000-0000-4000-8000-000000000001 HTTP/1.1\r\nHost: 127.0.0.1:8080\r\nUser-Agent: curl/7.88.1\r\nAccept: */*\r\nContent-Length: 2000000\r\nExpect: 100-continue\r\n\r\n";

/// `curl -T - URL <FILE`
pub const CURL_PUT_IN_CHUNKS: &[u8] =
    b"PUT /project/30000000-0000-4000-8000-000000000001 HTTP/1.1\r\nHost: 127.0.0.1:8080\r\nUser-Agent: curl/7.88.1\r\nAccept: */*\r\nTransfer-Encoding: chunked\r\nExpect: 100-continue\r\n\r\n";

/// `curl -X PUT URL`
pub const CURL_PUT_DAY: &[u8] =
    b"PUT /project/30000000-0000-4000-8000-000000000001/day/2027-05-01 HTTP/1.1\r\nHost: 127.0.0.1:8080\r\nUser-Agent: curl/7.88.1\r\nAccept: */*\r\n\r\n";

/// `curl -X DELETE URL`
pub const CURL_DELETE: &[u8] =
    b"DELETE /project/30000000-0000-4000-8000-000000000001 HTTP/1.1\r\nHost: 127.0.0.1:8080\r\nUser-Agent: curl/7.88.1\r\nAccept: */*\r\n\r\n";

/// `request('GET', PATH)`
pub const PYTHON_GET: &[u8] =
    b"GET /log HTTP/1.1\r\nHost: 127.0.0.1:8081\r\nAccept-Encoding: identity\r\n\r\n";

/// `urllib.request.urlopen(URL)`
pub const PYTHON_GET_BY_URLLIB: &[u8] =
    b"GET /timeline/_20000000-0000-4000-8000-000000000001 HTTP/1.1\r\nAccept-Encoding: identity\r\nHost: 127.0.0.1:8081\r\nUser-Agent: Python-urllib/3.11\r\nConnection: close\r\n\r\n";

/// `request('POST', PATH, BYTES)`
pub const PYTHON_POST: &[u8] =
    b"POST /projects/2027-04-01 HTTP/1.1\r\nHost: 127.0.0.1:8081\r\nAccept-Encoding: identity\r\nContent-Length: 1078\r\n\r\n";

/// `request('PUT', PATH)`
pub const PYTHON_PUT_DAY: &[u8] =
    b"PUT /project/30000000-0000-4000-8000-000000000001/day/2027-05-01 HTTP/1.1\r\nHost: 127.0.0.1:8081\r\nAccept-Encoding: identity\r\nContent-Length: 0\r\n\r\n";

/// `request('PUT', PATH, ITERATOR)`
pub const PYTHON_PUT_IN_CHUNKS: &[u8] =
    b"PUT /project/30000000-0000-4000-8000-000000000001 HTTP/1.1\r\nHost: 127.0.0.1:8081\r\nAccept-Encoding: identity\r\nTransfer-Encoding: chunked\r\n\r\n";

/// An address that is opened.
pub const CHROMIUM_PAGE: &[u8] =
    b"GET /log HTTP/1.1\r\nHost: 127.0.0.1:8082\r\nConnection: keep-alive\r\nsec-ch-ua: \"Not:A-Brand\";v=\"8\", \"Chromium\";v=\"156\"\r\nsec-ch-ua-mobile: ?0\r\nsec-ch-ua-platform: \"Linux\"\r\nUpgrade-Insecure-Requests: 1\r\nUser-Agent: Mozilla/5.0 (X11; Linux x86_64) AppleWebKit/537.36 (KHTML, like Gecko) HeadlessChrome/156.0.0.0 Safari/537.36\r\nAccept: text/html,application/xhtml+xml,application/xml;q=0.9,image/jxl,image/avif,image/webp,image/apng,*/*;q=0.8,application/signed-exchange;v=b3;q=0.7\r\nSec-Fetch-Site: none\r\nSec-Fetch-Mode: navigate\r\nSec-Fetch-User: ?1\r\nSec-Fetch-Dest: document\r\nAccept-Encoding: gzip, deflate, br, zstd\r\nAccept-Language: en-US,en;q=0.9\r\n\r\n";

/// What Chromium asks of each site besides.
pub const CHROMIUM_ICON: &[u8] =
    b"GET /favicon.ico HTTP/1.1\r\nHost: 127.0.0.1:8082\r\nConnection: keep-alive\r\nsec-ch-ua-platform: \"Linux\"\r\nUser-Agent: Mozilla/5.0 (X11; Linux x86_64) AppleWebKit/537.36 (KHTML, like Gecko) HeadlessChrome/156.0.0.0 Safari/537.36\r\nsec-ch-ua: \"Not:A-Brand\";v=\"8\", \"Chromium\";v=\"156\"\r\nsec-ch-ua-mobile: ?0\r\nAccept: image/jxl,image/avif,image/webp,image/apng,image/svg+xml,image/*,*/*;q=0.8\r\nSec-Fetch-Site: same-origin\r\nSec-Fetch-Mode: no-cors\r\nSec-Fetch-Dest: image\r\nReferer: http://127.0.0.1:8082/log\r\nAccept-Encoding: gzip, deflate, br, zstd\r\nAccept-Language: en-US,en;q=0.9\r\n\r\n";

/// `fetch(PATH, {method: 'POST', body: '<a/>'})`
pub const CHROMIUM_POST: &[u8] =
    b"POST /projects/2027-04-01 HTTP/1.1\r\nHost: 127.0.0.1:8082\r\nConnection: keep-alive\r\nContent-Length: 4\r\nsec-ch-ua-platform: \"Linux\"\r\nUser-Agent: Mozilla/5.0 (X11; Linux x86_64) AppleWebKit/537.36 (KHTML, like Gecko) HeadlessChrome/156.0.0.0 Safari/537.36\r\nsec-ch-ua: \"Not:A-Brand\";v=\"8\", \"Chromium\";v=\"156\"\r\nContent-Type: text/plain;charset=UTF-8\r\nsec-ch-ua-mobile: ?0\r\nAccept: */*\r\nOrigin: http://127.0.0.1:8082\r\nSec-Fetch-Site: same-origin\r\nSec-Fetch-Mode: cors\r\nSec-Fetch-Dest: empty\r\nReferer: http://127.0.0.1:8082/log\r\nAccept-Encoding: gzip, deflate, br, zstd\r\nAccept-Language: en-US,en;q=0.9\r\n\r\n";

/// `fetch(PATH, {method: 'DELETE'})`
pub const CHROMIUM_DELETE: &[u8] =
    b"DELETE /project/30000000-0000-4000-8000-000000000001 HTTP/1.1\r\nHost: 127.0.0.1:8082\r\nConnection: keep-alive\r\nsec-ch-ua-platform: \"Linux\"\r\nUser-Agent: Mozilla/5.0 (X11; Linux x86_64) AppleWebKit/537.36 (KHTML, like Gecko) HeadlessChrome/156.0.0.0 Safari/537.36\r\nsec-ch-ua: \"Not:A-Brand\";v=\"8\", \"Chromium\";v=\"156\"\r\nsec-ch-ua-mobile: ?0\r\nAccept: */*\r\nOrigin: http://127.0.0.1:8082\r\nSec-Fetch-Site: same-origin\r\nSec-Fetch-Mode: cors\r\nSec-Fetch-Dest: empty\r\nReferer: http://127.0.0.1:8082/log\r\nAccept-Encoding: gzip, deflate, br, zstd\r\nAccept-Language: en-US,en;q=0.9\r\n\r\n";
